//! The rows of `meta`: the format, the layout number, the global level and, in layout 2, the global
//! mode.

ghost use Rattle.std.specs.Prelude.{IsTrue, ◌↔◌, ◌≡◌, map, option_map, string_bytes};
ghost use Rattle.reg_rows.specs.Meta.{value_of, layout_one_names, layout_two_names, is_name, has_only_known_names, layout_of, has_common, is_layout_one_meta, is_layout_two_meta};
ghost use Rattle.reg_rows.specs.Spelling.{meta_pair};

use reg_core::{Level, Mode, parse_number};

/// The value of the first row with this name, or `None` if there is none.
fn value_of<'a>(rows: &'a [(String, String)], name: &str) -> Option<&'a str>
    ensures { option_map (λ value. value.now) result ≡ value_of name.now (map meta_pair rows.now) }
{
    for row in rows {
        if row.0.as_str() == name {
            return Some(row.1.as_str());
        }
    }
    None
}

/// The greatest layout number.
const MAX_LAYOUT: u32 = 999_999_999;

/// The layout number in the rows of `meta`, 1 to 999,999,999. `None` unless they have such a number
/// and the format `avroreg`.
pub fn layout_of(rows: &[(String, String)]) -> Option<u32>
    ensures { result ≡ layout_of (map meta_pair rows.now) }
{
    if value_of(rows, "format") != Some("avroreg") {
        return None;
    }
    parse_number(MAX_LAYOUT, value_of(rows, "layout")?.as_bytes())
}

fn is_layout_one_name(name: &str) -> bool
    ensures { result ≡ is_name layout_one_names name.now }
{
    name == "format" || name == "layout" || name == "global"
}

fn is_layout_two_name(name: &str) -> bool
    ensures { result ≡ is_name layout_two_names name.now }
{
    name == "mode" || is_layout_one_name(name)
}

/// Whether each row's name is one that `meta` has in layout 1.
fn has_only_layout_one_names(rows: &[(String, String)]) -> bool
    ensures { result ≡ has_only_known_names layout_one_names (map meta_pair rows.now) }
{
    for row in rows {
        if !is_layout_one_name(row.0.as_str()) {
            return false;
        }
    }
    true
}

/// Whether each row's name is one that `meta` has in layout 2.
fn has_only_layout_two_names(rows: &[(String, String)]) -> bool
    ensures { result ≡ has_only_known_names layout_two_names (map meta_pair rows.now) }
{
    for row in rows {
        if !is_layout_two_name(row.0.as_str()) {
            return false;
        }
    }
    true
}

/// Whether the rows have the format `avroreg`, this layout number, and a global level.
fn has_common(rows: &[(String, String)], number: &str) -> bool
    ensures { result ≡ has_common number.now (map meta_pair rows.now) }
{
    let Some(global) = value_of(rows, "global") else {
        return false;
    };
    value_of(rows, "format") == Some("avroreg")
        && value_of(rows, "layout") == Some(number)
        && Level::parse(global).is_some()
}

/// Whether the rows are a `meta` table of layout 1: the format `avroreg`, layout number 1, a global
/// level, and no other name.
pub fn is_layout_one_meta(rows: &[(String, String)]) -> bool
    ensures { result ≡ is_layout_one_meta (map meta_pair rows.now) }
{
    has_common(rows, "1") && has_only_layout_one_names(rows)
}

/// Whether the rows are a `meta` table of layout 2: the format `avroreg`, layout number 2, a global
/// level, a global mode, and no other name.
pub fn is_layout_two_meta(rows: &[(String, String)]) -> bool
    ensures { result ≡ is_layout_two_meta (map meta_pair rows.now) }
{
    let Some(mode) = value_of(rows, "mode") else {
        return false;
    };
    has_common(rows, "2") && Mode::parse(mode).is_some() && has_only_layout_two_names(rows)
}
