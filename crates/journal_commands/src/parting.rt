//! The part that the new journal is of a carry to several hosts, and what names the journals of all of them.
//! It knows the words and the name of the new journal, and no file.
ghost use Rattle.std.specs.Prelude.{◌≡◌, IfErr, IfOk, IfSome, None, option_map, string_bytes};
ghost use Rattle.journal_commands.specs.Parting.{HasNoStem, IsMarkName, IsPartAsked, IsStem, IsUnasked, name_of_all};

use airline_base::Memory;
use carry_parts::Part;
use itoa::Buffer;
use seat_words::{WordFault, shard_word};
use std::alloc::{AllocError, Global};

/// The part of which the new journal is: none where one host has all flights. Its name ends with a full stop and the number of its host.
#[tactic(auto, using(crate::proofs::PartNames::part_is, crate::proofs::PartNames::no_word, crate::proofs::PartNames::no_stem))]
pub(crate) fn part_asked(shard: Option<&str>, new: &str) -> Result<Option<Part>, WordFault>
    ensures part { IfOk result (IsPartAsked (option_map (λ word. word.now) shard.entry) new.now) }
    ensures fault { IfErr result (λ f. f ≡ WordFault.BadShard) }
    ensures wrong { IfErr result (λ f. IsUnasked (option_map (λ word. word.now) shard.entry) new.now) }
{
    let Some(word) = shard else {
        return Ok(None);
    };
    let Some(word) = shard_word(word) else {
        return Err(WordFault::BadShard);
    };
    if stem_of(new, word.shard).is_none() {
        return Err(WordFault::BadShard);
    }
    Ok(Some(Part {
        shard: word.shard,
        shards: word.shards,
    }))
}

/// By what a mark names the journal of this path: the path itself, or what names the journals of all hosts where it is of one of several; `None` where its
/// path doesn't end with the number of its host.
#[tactic(auto, using(crate::proofs::PartNames::own_name, crate::proofs::PartNames::all_named, crate::proofs::PartNames::no_name))]
pub(crate) fn mark_name(
    alloc: Global,
    path: &str,
    part: Option<Part>,
) -> Result<Option<String>, Memory>
    ensures { IfOk result (λ name. IsMarkName path.now part (option_map string_bytes name)) }
{
    let Some(part) = part else {
        return match copied(alloc, path) {
            Ok(name) => Ok(Some(name)),
            Err(_) => Err(Memory),
        };
    };
    let Some(stem) = stem_of(path, part.shard) else {
        return Ok(None);
    };
    match name_of_all(alloc, stem, part.shards) {
        Ok(name) => Ok(Some(name)),
        Err(_) => Err(Memory),
    }
}

fn copied(alloc: Global, path: &str) -> Result<String, AllocError>
    ensures { IfOk result (λ name. string_bytes name ≡ path.now) }
{
    let mut name = String::new(alloc);
    name.push_str(path)?;
    Ok(name)
}

/// What names the journals of so many hosts, whose paths begin alike. No path has the byte NUL, so it is no other journal's.
fn name_of_all(alloc: Global, stem: &str, shards: u16) -> Result<String, AllocError>
    ensures { IfOk result (λ name. string_bytes name ≡ name_of_all stem.now shards) }
{
    let mut buffer = Buffer::new();
    let mut name = String::new(alloc);
    name.push_str(stem)?;
    name.push_str("\0")?;
    name.push_str(buffer.format(shards))?;
    Ok(name)
}

/// A path without the full stop and the number of the host at its end, where it has them.
fn stem_of(path: &str, shard: u16) -> Option<&str>
    ensures stem { IfSome result (λ stem. IsStem path.now shard stem.now) }
    ensures none { result ≡ None → HasNoStem path.now shard }
{
    let mut buffer = Buffer::new();
    let Some(rest) = path.strip_suffix(buffer.format(shard)) else {
        return None;
    };
    rest.strip_suffix('.')
}
