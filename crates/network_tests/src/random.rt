use crate::list_network::{ListNetwork, some_network};
use crate::plain_search::PlainCost;
use crate::proved::{Searched, plain_answer};
use dice::Dice;
use network::loss::Loss;
use network::metres::Metres;
use std::alloc::Global;
use std::process::Abort;
use std::test::Fail;

const NETWORKS: u32 = 300;

// Compares the answers from one place to another; whether there is a path.
fn agree<C: PlainCost>(
    rt: &impl Abort,
    searched: &mut Searched<C>,
    listed: &ListNetwork,
    from: u8,
    to: u8,
) -> bool {
    let wanted = plain_answer::<C>(listed, from, to);
    assert_eq!(rt; searched.answer(from, to), wanted);
    wanted.is_some()
}

// The same from one place to every place and to numbers just outside; how many are paths.
fn agree_from<C: PlainCost>(
    rt: &impl Abort,
    searched: &mut Searched<C>,
    listed: &ListNetwork,
    from: u8,
) -> usize {
    (0..listed.places.saturating_add(2))
        .filter(|to| agree(rt, searched, listed, from, *to))
        .count()
}

// The same from every place.
fn all_agree<C: PlainCost>(
    rt: &impl Abort,
    heap: Global,
    listed: &ListNetwork,
) -> Result<usize, Fail> {
    let mut searched: Searched<C> = Searched::new(heap, listed)?;
    Ok(
        (0..listed.places.saturating_add(2))
            .map(|from| agree_from(rt, &mut searched, listed, from))
            .fold(0, usize::saturating_add),
    )
}

#[test]
fn random_networks_answer_as_all_paths_tried(rt: HostRuntime) -> Result<(), Fail> {
    let heap = rt.alloc();
    let mut dice = Dice::new(1);
    let mut paths: usize = 0;
    for _ in 0..NETWORKS {
        let listed = some_network(heap, &mut dice)?;
        paths = paths.saturating_add(all_agree::<Metres>(&rt, heap, &listed)?);
        paths = paths.saturating_add(all_agree::<Loss>(&rt, heap, &listed)?);
    }
    assert!(rt; paths > 3000, "too few paths to compare");
    Ok(())
}
