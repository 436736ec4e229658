//! A worked example: nodes of two owners.

ghost use Rattle.std.specs.Prelude.{◌<◌, length};

use crate::Pool;
use std::process::Abort;
use std::test::Fail;

/// The nodes in order have these values, and no node stands behind them.
fn has_order(rt: &impl Abort, pool: &Pool<u8>, wanted: &[u8]) {
    let mut at = pool.first();
    for value in wanted {
        match at {
            Some(id) => {
                assert_eq!(rt; pool.value(id), *value);
                at = pool.next(id);
            }
            None => panic!(rt; "too few"),
        }
    }
    assert_eq!(rt; at, None);
}

/// The owner's nodes have these values, the newest first.
fn has_chain(rt: &impl Abort, pool: &Pool<u8>, owner: u32, wanted: &[u8])
    requires { owner < length pool.now.chains }
{
    let mut at = pool.first_of(owner);
    for value in wanted {
        match at {
            Some(id) => {
                assert_eq!(rt; pool.value(id), *value);
                assert_eq!(rt; pool.owner(id), owner);
                at = pool.next_of(id);
            }
            None => panic!(rt; "too few"),
        }
    }
    assert_eq!(rt; at, None);
}

#[test]
fn two_owners(rt: HostRuntime) -> Result<(), Fail> {
    let mut pool = Pool::new(rt.alloc(), 2)?;
    pool.reserve(3)?;
    let a = pool.insert_after(None, 0, b'a');
    pool.insert_after(Some(a), 1, b'b');
    pool.insert_after(Some(a), 0, b'c');
    has_order(&rt, &pool, b"acb");
    has_chain(&rt, &pool, 0, b"ca");
    has_chain(&rt, &pool, 1, b"b");
    assert_eq!(rt; pool.remove_owner(0), 2);
    has_order(&rt, &pool, b"b");
    has_chain(&rt, &pool, 0, b"");
    has_chain(&rt, &pool, 1, b"b");
    Ok(())
}
