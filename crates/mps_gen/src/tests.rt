// Each call once.
use crate::{Chains, DueGeneration};
use mps_base::Refusal;

#[test]
fn knows_targets_and_what_is_due(rt: HostRuntime) {
    let mut chains = Chains::new();
    assert!(rt; chains.chain(&[4, 8]) == Ok(0));
    assert!(rt; chains.chain(&[2]) == Ok(1));
    let on_chain = chains.pool(Some(0));
    let on_none = chains.pool(None);
    assert!(rt; chains.chain_of(on_chain) == Some(0));
    assert!(rt; chains.chain_of(on_none) == None);
    assert!(rt; chains.generations_of(on_chain) == Some(2));
    assert!(rt; chains.generations_of(on_none) == None);
    assert_eq!(rt; chains.target(on_chain, 0), 1);
    assert_eq!(rt; chains.target(on_chain, 1), 1);
    assert_eq!(rt; chains.target(on_none, 0), 0);
    let mut held = [[0; 8]; 16];
    held[0][0] = 4;
    held[0][1] = 8;
    held[1][0] = 3;
    assert!(rt;
        chains.due(&held)
            == Some(DueGeneration {
                chain: 1,
                generation: 0
            })
    );
    held[0][1] = 9;
    assert!(rt;
        chains.due(&held)
            == Some(DueGeneration {
                chain: 0,
                generation: 1
            })
    );
    held = [[0; 8]; 16];
    assert!(rt; chains.due(&held) == None);
}

#[test]
fn refuses_a_seventeenth_chain(rt: HostRuntime) {
    let mut chains = Chains::new();
    for _ in 0..16 {
        let _ = chains.chain(&[1]);
    }
    assert!(rt; chains.chain(&[1]) == Err(Refusal::TooMany { limit: 16 }));
}
