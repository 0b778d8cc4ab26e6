// Each call once, and 2,000 random steps beside plain lists.
use crate::{Caches, ClassSize};
use mps_base::Addr;
use std::alloc::AllocError;

const SIZES: [ClassSize; 3] = [
    ClassSize { words: 2, limit: 3 },
    ClassSize { words: 4, limit: 0 },
    ClassSize {
        words: 16,
        limit: 2,
    },
];

#[test]
fn the_last_cached_comes_back_first(rt: HostRuntime) -> Result<(), AllocError> {
    let mut caches = Caches::new(rt.alloc())?;
    let q = caches.add(5, &SIZES);
    assert_eq!(rt; caches.count(), 1);
    assert_eq!(rt; caches.pool(q), 5);
    assert!(rt; caches.take(q, 16) == None);
    assert!(rt; caches.keep(q, 16, Addr(8)));
    assert!(rt; caches.keep(q, 16, Addr(256)));
    assert!(rt; !caches.keep(q, 16, Addr(512)));
    assert!(rt; !caches.keep(q, 4, Addr(512)));
    assert!(rt; !caches.keep(q, 3, Addr(512)));
    assert!(rt; caches.take(q, 16) == Some(Addr(256)));
    assert!(rt; caches.keep(q, 2, Addr(1024)));
    assert_eq!(rt; caches.cached(q), 2);
    assert!(rt; caches.next(q) == Some(Addr(1024)));
    assert!(rt; caches.next(q) == Some(Addr(8)));
    assert!(rt; caches.next(q) == None);
    Ok(())
}

// A class as it is to be.
#[derive(Drop)]
struct Plain {
    words: u32,
    limit: u32,
    blocks: Vec<u64>,
}

// The block kept last in the class of a size, in a plain list.
fn plain_take(plain: &mut Vec<Plain>, words: u32) -> Option<u64> {
    for class in plain.iter_mut() {
        if class.words == words {
            return class.blocks.pop();
        }
    }
    None
}

// Whether a plain list keeps a block in the class of its size.
fn plain_keep(plain: &mut Vec<Plain>, words: u32, at: u64) -> Result<bool, AllocError> {
    for class in plain.iter_mut() {
        if class.words == words {
            let fits = class.blocks.len() < class.limit as usize;
            if fits {
                class.blocks.push(at)?;
            }
            return Ok(fits);
        }
    }
    Ok(false)
}

// The next block of a plain list.
fn plain_next(plain: &mut Vec<Plain>) -> Option<u64> {
    for class in plain.iter_mut() {
        if let Some(at) = class.blocks.pop() {
            return Some(at);
        }
    }
    None
}

// Whether one step has the same answer in the first cache and in the plain list.
fn agree(
    caches: &mut Caches,
    plain: &mut Vec<Plain>,
    choice: u64,
    number: u64,
) -> Result<bool, AllocError> {
    if caches.count() == 0 {
        return Ok(false);
    }
    let words = if number % 3 == 0 {
        16
    } else {
        (number % 6) as u32
    };
    match choice {
        0 => Ok(caches.next(0).map(|at| at.0) == plain_next(plain)),
        1 | 2 => Ok(caches.take(0, words).map(|at| at.0) == plain_take(plain, words)),
        _ => Ok(caches.keep(0, words, Addr(number)) == plain_keep(plain, words, number)?),
    }
}

#[test]
fn stays_beside_plain_lists(rt: HostRuntime) -> Result<(), AllocError> {
    let mut caches = Caches::new(rt.alloc())?;
    let _ = caches.add(0, &SIZES);
    let mut plain = Vec::new(rt.alloc());
    for size in &SIZES {
        plain.push(Plain {
            words: size.words,
            limit: size.limit,
            blocks: Vec::new(rt.alloc()),
        })?;
    }
    let mut seed = 1u64;
    for _ in 0..2_000 {
        seed = seed
            .wrapping_mul(6364136223846793005)
            .wrapping_add(1442695040888963407);
        assert!(rt; agree(&mut caches, &mut plain, (seed >> 33) % 8, seed >> 40)?);
    }
    Ok(())
}
