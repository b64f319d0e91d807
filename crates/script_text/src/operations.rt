// Reads an operation, by its word and what stands behind the resource's name.
ghost use Rattle.std.specs.Prelude.{◌≡◌, map, option_and_then};
ghost use Rattle.std.specs.Option.{option_map};
ghost use Rattle.script_text.specs.Faults.{Reads};
ghost use Rattle.script_text.specs.Operations.{looks};
ghost use Rattle.script_text.specs.Tables.{lookup};
ghost use Rattle.script_text.specs.Reading.{op_read, one_read, one_ops, two_ops, bare_ops, word_ops};

use crate::fields::{read_key, read_kind, read_number, read_signed, read_word};
use crate::line::LineFault;
use host_types::{Op, Word};
use std::alloc::Global;

/// Whether an operation changes nothing, so that it can be asked outside of the log.
pub fn is_looking(op: &Op) -> bool
    ensures { result ≡ looks op.now }
{
    matches!(
        op,
        Op::Size
            | Op::Get
            | Op::GetOf { key: _ }
            | Op::Count { key: _ }
            | Op::Has { word: _ }
            | Op::Peek
            | Op::Holder
            | Op::Members
            | Op::Leader
    )
}

fn bare_op(verb: &str) -> Option<Op>
    ensures { result ≡ lookup bare_ops verb.now }
{
    match verb {
        "delete" => Some(Op::Delete),
        "size" => Some(Op::Size),
        "clear" => Some(Op::Clear),
        "get" => Some(Op::Get),
        "unset" => Some(Op::Unset),
        "poll" => Some(Op::Poll),
        "peek" => Some(Op::Peek),
        "holder" => Some(Op::Holder),
        "members" => Some(Op::Members),
        "leader" => Some(Op::Leader),
        "listen" => Some(Op::Listen),
        "unlisten" => Some(Op::Unlisten),
        _ => None,
    }
}

fn word_op(verb: &str, word: Word) -> Option<Op>
    ensures { result ≡ option_map (λ make. make word) (lookup word_ops verb.now) }
{
    match verb {
        "set" => Some(Op::Set { word }),
        "getset" => Some(Op::GetSet { word }),
        "insert" => Some(Op::Insert { word }),
        "discard" => Some(Op::Discard { word }),
        "has" => Some(Op::Has { word }),
        "offer" => Some(Op::Enqueue { word }),
        "removeword" => Some(Op::RemoveWord { word }),
        "join" => Some(Op::Join { word }),
        "publish" => Some(Op::Publish { word }),
        _ => None,
    }
}

fn one_op(alloc: Global, verb: &str, argument: &str) -> Result<Op, LineFault>
    ensures { Reads result (one_read (lookup one_ops verb.now) verb.now argument.now) }
{
    match verb {
        "create" => Ok(Op::Create {
            kind: read_kind(argument)?,
        }),
        "reset" => Ok(Op::Reset {
            number: read_signed(argument)?,
        }),
        "add" => Ok(Op::Add {
            number: read_signed(argument)?,
        }),
        "lock" => Ok(Op::Lock {
            id: read_number(argument)?,
        }),
        "try" => Ok(Op::Try {
            id: read_number(argument)?,
        }),
        "unlock" => Ok(Op::Unlock {
            id: read_number(argument)?,
        }),
        "leave" => Ok(Op::Leave {
            member: read_number(argument)?,
        }),
        "get" => Ok(Op::GetOf {
            key: read_key(alloc, argument)?,
        }),
        "remove" => Ok(Op::Remove {
            key: read_key(alloc, argument)?,
        }),
        "count" => Ok(Op::Count {
            key: read_key(alloc, argument)?,
        }),
        _ => word_op(verb, read_word(alloc, argument)?).ok_or(LineFault::Bad),
    }
}

fn two_op(alloc: Global, verb: &str, first: &str, second: &str) -> Result<Op, LineFault>
    ensures { Reads result (option_and_then (λ read. read first.now second.now) (lookup two_ops verb.now)) }
{
    Ok(match verb {
        "cas" => Op::Cas {
            old: read_word(alloc, first)?,
            new: read_word(alloc, second)?,
        },
        "put" => Op::Put {
            key: read_key(alloc, first)?,
            word: read_word(alloc, second)?,
        },
        "putif" => Op::PutIf {
            key: read_key(alloc, first)?,
            word: read_word(alloc, second)?,
        },
        "replace" => Op::Replace {
            key: read_key(alloc, first)?,
            word: read_word(alloc, second)?,
        },
        "removeone" => Op::RemoveOne {
            key: read_key(alloc, first)?,
            word: read_word(alloc, second)?,
        },
        _ => return Err(LineFault::Bad),
    })
}

/// The operation of this word, with what stands behind the name of the resource.
pub fn read_op(alloc: Global, verb: &str, arguments: &[&str]) -> Result<Op, LineFault>
    ensures { Reads result (op_read verb.now (map (λ argument. argument.now) arguments.now)) }
{
    match arguments {
        [] => bare_op(verb).ok_or(LineFault::Bad),
        [argument] => one_op(alloc, verb, argument),
        [first, second] => two_op(alloc, verb, first, second),
        _ => Err(LineFault::Bad),
    }
}
