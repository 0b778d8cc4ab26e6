// Each call once, and 2,000 random steps compared with plain lists.
use crate::Finals;
use mps_base::{Addr, Refusal};
use std::alloc::AllocError;

#[test]
fn posts_in_order(rt: HostRuntime) -> Result<(), AllocError> {
    let mut finals = Finals::new(rt.alloc())?;
    assert!(rt; finals.register(Addr(8)) == Ok(()));
    assert!(rt; finals.register(Addr(16)) == Ok(()));
    assert!(rt; finals.register(Addr(8)) == Ok(()));
    assert!(rt; finals.unregister(Addr(40)) == Err(Refusal::NotRegistered));
    assert!(rt; finals.unregister(Addr(8)) == Ok(()));
    assert_eq!(rt; finals.registered(), 2);
    assert!(rt; finals.take() == None);
    finals.set(0, Addr(24));
    assert!(rt; finals.at(0) == Addr(24));
    finals.post(0);
    assert_eq!(rt; finals.messages(), 1);
    assert!(rt; finals.message(0) == Addr(24));
    finals.set_message(0, Addr(32));
    finals.remove(0);
    assert!(rt; finals.take() == Some(Addr(32)));
    assert_eq!(rt; finals.registered(), 0);
    Ok(())
}

#[test]
fn refuses_one_more_than_65536(rt: HostRuntime) -> Result<(), AllocError> {
    let mut finals = Finals::new(rt.alloc())?;
    for number in 0..65_536u64 {
        assert!(rt; finals.register(Addr(8 * number + 8)) == Ok(()));
    }
    assert!(rt; finals.register(Addr(8)) == Err(Refusal::TooMany { limit: 65_536 }));
    Ok(())
}

// What the calls are to have made of registrations and messages.
#[derive(Drop)]
struct Lists {
    registered: Vec<u64>,
    messages: Vec<u64>,
}

impl Lists {
    fn unregister(&mut self, at: u64) -> bool {
        for position in 0..self.registered.len() {
            if self.registered[position] == at {
                let _ = self.registered.remove(position);
                return true;
            }
        }
        false
    }

    fn take(&mut self) -> Option<Addr> {
        if self.messages.is_empty() {
            return None;
        }
        Some(Addr(self.messages.remove(0)))
    }
}

// Does the same to both if it can be done, and returns whether they answer the same.
fn step(
    finals: &mut Finals,
    lists: &mut Lists,
    choice: u64,
    number: u64,
) -> Result<bool, AllocError> {
    let at = 8 + 8 * (number % 32);
    let position = number as usize;
    match choice {
        0 | 1 | 2 => {
            lists.registered.push(at)?;
            Ok(finals.register(Addr(at)) == Ok(()))
        }
        3 => Ok((finals.unregister(Addr(at)) == Ok(())) == lists.unregister(at)),
        4 => Ok(finals.take() == lists.take()),
        _ if position >= finals.registered() || position >= lists.registered.len() => Ok(true),
        5 => {
            finals.post(position);
            lists.messages.push(lists.registered.remove(position))?;
            Ok(true)
        }
        6 => {
            finals.remove(position);
            let _ = lists.registered.remove(position);
            Ok(true)
        }
        _ => {
            finals.set(position, Addr(at));
            lists.registered[position] = at;
            Ok(true)
        }
    }
}

fn agree(finals: &mut Finals, lists: &Lists) -> bool {
    if finals.registered() != lists.registered.len() || finals.messages() != lists.messages.len() {
        return false;
    }
    for position in 0..lists.registered.len() {
        if position < finals.registered() && finals.at(position).0 != lists.registered[position] {
            return false;
        }
    }
    true
}

#[test]
fn stays_beside_plain_lists(rt: HostRuntime) -> Result<(), AllocError> {
    let mut finals = Finals::new(rt.alloc())?;
    let mut lists = Lists {
        registered: Vec::new(rt.alloc()),
        messages: Vec::new(rt.alloc()),
    };
    let mut seed = 1u64;
    for _ in 0..2_000 {
        seed = seed
            .wrapping_mul(6364136223846793005)
            .wrapping_add(1442695040888963407);
        let choice = (seed >> 33) % 8;
        let number = (seed >> 40) % 40;
        assert!(rt; step(&mut finals, &mut lists, choice, number)?);
        assert!(rt; agree(&mut finals, &lists));
    }
    Ok(())
}
