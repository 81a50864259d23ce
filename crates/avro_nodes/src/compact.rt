//! A writer of compact JSON, one token at a time.

ghost use Rattle.std.specs.Prelude.{◌≡◌, ◌∷◌, ◌++◌, [], OnOk, IfOk, string_bytes, decimal, Some, ℕ, List};
ghost use Rattle.json.specs.Token.{begin_object, end_object, begin_array, end_array, key, string, number, boolean, null};
ghost use Rattle.json.specs.Print.{print};
ghost use Rattle.json.specs.Lex.{tokens};
ghost use Rattle.serde_json.specs.Read.{number_of};
ghost use Rattle.serde_json.specs.Written.{number_text, unless_float};
ghost use Rattle.serde_json.specs.View.{number_view};

use json::Writer;
use serde_json::Number;
use std::alloc::{AllocError, Global};
use std::marker::Model;

/// A writer of compact JSON. Contracts see the tokens written so far.
#[derive(Drop)]
pub(crate) struct CompactWriter {
    out: Writer,
}

impl Model for CompactWriter {
    ghost use Rattle.std.specs.Prelude.{◌≡◌, List, []};
    ghost use Rattle.json.specs.Token.{Token, tokens_code};

    ghost Value = { List Token };

    ghost coded = { tokens_code };

    ghost view = { λ c. c.out.tokens };

    ghost invariant = { λ c. c.out.before ≡ [] };
}

impl CompactWriter {
    /// Returns a writer without text.
    pub(crate) fn new(alloc: Global) -> Result<CompactWriter, AllocError>
        ensures { IfOk result (λ c. c ≡ []) }
    {
        Ok(CompactWriter {
            out: Writer::new(Vec::with_capacity(alloc, 128)?),
        })
    }

    /// Returns the text.
    pub(crate) fn into_string(self) -> String
        ensures text { string_bytes result ≡ print self }
        ensures reads_back { tokens (print self) ≡ self }
    {
        let CompactWriter { out } = self;
        String::from_utf8(out.into_inner()).unwrap()
    }

    /// Writes the bracket that begins an object.
    pub(crate) fn begin_object(&mut self) -> Result<(), AllocError>
        ensures { OnOk result (self.new ≡ self.old ++ begin_object ∷ []) }
    {
        self.out.begin_object()
    }

    /// Writes the bracket that ends an object.
    pub(crate) fn end_object(&mut self) -> Result<(), AllocError>
        ensures { OnOk result (self.new ≡ self.old ++ end_object ∷ []) }
    {
        self.out.end_object()
    }

    /// Writes the bracket that begins an array.
    pub(crate) fn begin_array(&mut self) -> Result<(), AllocError>
        ensures { OnOk result (self.new ≡ self.old ++ begin_array ∷ []) }
    {
        self.out.begin_array()
    }

    /// Writes the bracket that ends an array.
    pub(crate) fn end_array(&mut self) -> Result<(), AllocError>
        ensures { OnOk result (self.new ≡ self.old ++ end_array ∷ []) }
    {
        self.out.end_array()
    }

    /// Writes a member's name. The caller writes its value next.
    pub(crate) fn key(&mut self, name: &str) -> Result<(), AllocError>
        ensures { OnOk result (self.new ≡ self.old ++ key name.now ∷ []) }
    {
        self.out.key(name)
    }

    /// Writes a string.
    pub(crate) fn string(&mut self, text: &str) -> Result<(), AllocError>
        ensures { OnOk result (self.new ≡ self.old ++ string text.now ∷ []) }
    {
        self.out.string(text)
    }

    /// Writes `true` or `false`.
    pub(crate) fn boolean(&mut self, b: bool) -> Result<(), AllocError>
        ensures { OnOk result (self.new ≡ self.old ++ boolean b ∷ []) }
    {
        self.out.boolean(b)
    }

    /// Writes `null`.
    pub(crate) fn null(&mut self) -> Result<(), AllocError>
        ensures { OnOk result (self.new ≡ self.old ++ null ∷ []) }
    {
        self.out.null()
    }

    /// Writes an unsigned integer.
    pub(crate) fn unsigned(&mut self, n: u64) -> Result<(), AllocError>
        ensures { OnOk result (self.new ≡ self.old ++ number (decimal n) ∷ []) }
    {
        self.out.u64(n)
    }

    /// Writes a number; an integer in decimal digits.
    pub(crate) fn number(&mut self, n: &Number) -> Result<(), AllocError>
        ensures { OnOk result ((s : List ℕ)
            × (self.new ≡ self.old ++ number s ∷ [])
            × (number_of s ≡ Some (number_view n.now))
            × (unless_float s ≡ number_text (number_view n.now))) }
    {
        if let Some(whole) = n.as_u64() {
            return self.out.u64(whole);
        }
        if let Some(below) = n.as_i64() {
            return self.out.i64(below);
        }
        self.out.float_with_plus(n.as_f64().unwrap())
    }
}
