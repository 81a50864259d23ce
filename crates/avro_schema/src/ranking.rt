//! Sorts names, and finds the rank of each text among them. Sorting yields a hint for each text, so
//! finding a rank usually takes one comparison, not a search.

ghost use Rattle.std.specs.Prelude.{◌≡◌, ◌<◌, ◌^◌, All, Contains, IfOk, IfSome, length, map};
ghost use Rattle.avro_nodes.specs.Nodes.{texts_view};
ghost use Rattle.avro_schema.specs.Index.{AreIndexNames, AreRanks, AreSortedRanks, IsRank, AreStrictlySorted};
ghost use Rattle.avro_schema.specs.Inside.NodeTexts.{borrowed};

use std::alloc::{AllocError, Global};
use std::slice::Iter;

/// The texts, each with its index in the list.
fn with_indices<'a>(alloc: Global, texts: &[&'a str]) -> Result<Vec<(&'a str, usize)>, AllocError>
    ensures { IfOk result (λ v. map (λ p. p.0) v.items ≡ texts.now) }
{
    let mut list = Vec::with_capacity(alloc, texts.len())?;
    for text in texts {
        list.push((*text, list.len()))?;
    }
    Ok(list)
}

/// The texts without their indices.
fn without_indices<'a>(alloc: Global, list: &[(&'a str, usize)]) -> Result<Vec<&'a str>, AllocError>
    ensures { IfOk result (λ v. v.items ≡ map (λ p. p.0) list.now) }
{
    let mut texts = Vec::with_capacity(alloc, list.len())?;
    for entry in list {
        texts.push(entry.0)?;
    }
    Ok(texts)
}

/// The rank of each text of a sorted list, by the text's index. `confirmed` compares each hint with
/// its name, so no contract needs to say that hints are right.
fn hints_of(alloc: Global, sorted: &[(&str, usize)]) -> Result<Vec<u32>, AllocError> {
    let mut hints = vec![in alloc; 0u32; sorted.len()]?;
    let mut rank: u32 = 0;
    let mut name = match sorted.first() {
        Some(first) => first.0,
        None => "",
    };
    for entry in sorted {
        if entry.0 != name {
            rank = rank.wrapping_add(1);
            name = entry.0;
        }
        if let Some(hint) = hints.get_mut(entry.1) {
            *hint = rank;
        }
    }
    Ok(hints)
}

/// The texts in byte order without duplicates, and for each index of the given list the likely rank
/// of its text.
///
/// # Errors
///
/// `AllocError` if an allocation fails.
pub fn sorted_unique<'a>(
    alloc: Global,
    texts: Vec<&'a str>,
) -> Result<(Vec<&'a str>, Vec<u32>), AllocError>
    ensures rise { IfOk result (λ r. AreStrictlySorted (borrowed r.0.items)) }
    ensures all { IfOk result (λ r. All (Contains (borrowed r.0.items)) (borrowed texts.entry.items)) }
{
    let mut sorted = with_indices(alloc, &texts)?;
    drop(texts);
    sorted.sort_unstable_by_key(|entry| entry.0);
    let hints = hints_of(alloc, &sorted)?;
    let mut names = without_indices(alloc, &sorted)?;
    names.dedup();
    Ok((names, hints))
}

/// Copies of the texts.
///
/// # Errors
///
/// `AllocError` if an allocation fails.
pub fn owned(alloc: Global, texts: &[&str]) -> Result<Vec<String>, AllocError>
    ensures { IfOk result (λ v. texts_view v.items ≡ borrowed texts.now) }
{
    let mut list = Vec::with_capacity(alloc, texts.len())?;
    for text in texts {
        list.push(String::from_str(alloc, text)?)?;
    }
    Ok(list)
}

/// Returns the hint if it is the rank of the text.
fn confirmed(names: &[&str], hint: Option<&u32>, text: &str) -> Option<u32>
    ensures { IfSome result (λ rank. IsRank (borrowed names.now) text.now rank) }
{
    let Some(rank) = hint else {
        return None;
    };
    match names.get(*rank as usize) {
        Some(name) if *name == text => Some(*rank),
        _ => None,
    }
}

/// The rank of a text that is one of the names. The next hint is tried first, then a binary search.
pub fn rank_of(names: &[&str], hints: &mut Iter<'_, u32>, text: &str) -> u32
    requires names { AreIndexNames (borrowed names.now) }
    requires known { Contains (borrowed names.now) text.now }
    ensures { IsRank (borrowed names.now) text.now result }
{
    if let Some(rank) = confirmed(names, hints.next(), text) {
        return rank;
    }
    match names.binary_search(&text) {
        Ok(rank) => rank as u32,
        Err(_) => 0,
    }
}

/// The ranks of the texts, in the order of the texts.
///
/// # Errors
///
/// `AllocError` if an allocation fails.
pub fn ranks_of(
    alloc: Global,
    names: &[&str],
    hints: &mut Iter<'_, u32>,
    texts: &[String],
) -> Result<Vec<u32>, AllocError>
    requires names { AreIndexNames (borrowed names.now) }
    requires known { All (Contains (borrowed names.now)) (texts_view texts.now) }
    ensures { IfOk result (λ v. AreRanks (borrowed names.now) (texts_view texts.now) v.items) }
{
    let mut ranks = Vec::with_capacity(alloc, texts.len())?;
    for text in texts {
        ranks.push(rank_of(names, hints, text.as_str()))?;
    }
    Ok(ranks)
}

/// The ranks of the texts, ascending and without duplicates.
///
/// # Errors
///
/// `AllocError` if an allocation fails.
pub fn sorted_ranks_of(
    alloc: Global,
    names: &[&str],
    hints: &mut Iter<'_, u32>,
    texts: &[String],
) -> Result<Vec<u32>, AllocError>
    requires names { AreIndexNames (borrowed names.now) }
    requires known { All (Contains (borrowed names.now)) (texts_view texts.now) }
    ensures { IfOk result (λ v. AreSortedRanks (borrowed names.now) (texts_view texts.now) v.items) }
{
    let mut ranks = ranks_of(alloc, names, hints, texts)?;
    ranks.sort_unstable();
    ranks.dedup();
    Ok(ranks)
}
