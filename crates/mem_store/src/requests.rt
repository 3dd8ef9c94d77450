//! Operations that are asked for, and with their own copies of keys and bytes, as events hold them.

ghost use Rattle.std.specs.Prelude.{◌≡◌, IfOk};

use ice_base::Bytes;
use object_store::{Key, Op, Part, Version, Why};
use std::alloc::{AllocError, Global};

/// An operation that is asked for: its key and its bytes are lent.
#[derive(Clone, Copy, Debug)]
pub enum OpRef<'a> {
    Get {
        key: &'a Key,
    },
    PutNew {
        key: &'a Key,
        bytes: &'a [u8],
        why: Why,
    },
    PutOver {
        key: &'a Key,
        bytes: &'a [u8],
        old: Version,
        why: Why,
    },
    Remove {
        key: &'a Key,
        why: Why,
    },
    RemoveAt {
        key: &'a Key,
        old: Version,
        why: Why,
    },
    List {
        part: Part,
    },
}

impl OpRef<'_> {
    ghost use Rattle.mem_store.specs.Lent.{op_lent};

    /// The operation with its own copies.
    pub(crate) fn owned(&self, alloc: Global) -> Result<Op, AllocError>
        ensures { IfOk result (λ op. op ≡ op_lent self.now) }
    {
        match self {
            OpRef::Get { key } => get(alloc, key),
            OpRef::PutNew { key, bytes, why } => put_new(alloc, key, bytes, *why),
            OpRef::PutOver {
                key,
                bytes,
                old,
                why,
            } => put_over(alloc, key, bytes, *old, *why),
            OpRef::Remove { key, why } => remove(alloc, key, *why),
            OpRef::RemoveAt { key, old, why } => remove_at(alloc, key, *old, *why),
            OpRef::List { part } => Ok(Op::List { part: *part }),
        }
    }
}

pub(crate) fn get(alloc: Global, key: &Key) -> Result<Op, AllocError>
    ensures { IfOk result (λ op. op ≡ Op.Get key.now) }
{
    let key = key.copy(alloc)?;
    Ok(Op::Get { key })
}

pub(crate) fn put_new(alloc: Global, key: &Key, bytes: &[u8], why: Why) -> Result<Op, AllocError>
    ensures { IfOk result (λ op. op ≡ Op.PutNew key.now bytes.now why) }
{
    let key = key.copy(alloc)?;
    let bytes = Bytes::of(alloc, bytes)?;
    Ok(Op::PutNew { key, bytes, why })
}

pub(crate) fn put_over(
    alloc: Global,
    key: &Key,
    bytes: &[u8],
    old: Version,
    why: Why,
) -> Result<Op, AllocError>
    ensures { IfOk result (λ op. op ≡ Op.PutOver key.now bytes.now old why) }
{
    let key = key.copy(alloc)?;
    let bytes = Bytes::of(alloc, bytes)?;
    Ok(Op::PutOver {
        key,
        bytes,
        old,
        why,
    })
}

pub(crate) fn remove(alloc: Global, key: &Key, why: Why) -> Result<Op, AllocError>
    ensures { IfOk result (λ op. op ≡ Op.Remove key.now why) }
{
    let key = key.copy(alloc)?;
    Ok(Op::Remove { key, why })
}

pub(crate) fn remove_at(alloc: Global, key: &Key, old: Version, why: Why) -> Result<Op, AllocError>
    ensures { IfOk result (λ op. op ≡ Op.RemoveAt key.now old why) }
{
    let key = key.copy(alloc)?;
    Ok(Op::RemoveAt { key, old, why })
}
