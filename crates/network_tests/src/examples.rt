use crate::list_network::{ListNetwork, ListedLink};
use crate::plain_search::PlainCost;
use crate::proved::{Answer, Searched, plain_answer};
use network::cost::Cost;
use network::loss::Loss;
use network::metres::Metres;
use std::alloc::{AllocError, Global};
use std::process::Abort;
use std::test::Fail;

// A link's two places, its metres and its loss.
type Figures = (u8, u8, u32, u32);

// A network of these links, all of them usable.
fn listed(
    heap: Global,
    places: u8,
    hops: u8,
    links: &[Figures],
) -> Result<ListNetwork, AllocError> {
    let mut all = Vec::new(heap);
    for l in links {
        let link = ListedLink {
            one: l.0,
            two: l.1,
            metres: l.2,
            loss: l.3,
            usable: true,
        };
        all.push(link)?;
    }
    Ok(ListNetwork {
        places,
        hops,
        links: all,
    })
}

// The answer of these numbers; of no number, that there is no path.
fn wanted(numbers: &[u8]) -> Answer {
    let count = u8::try_from(numbers.len()).ok().filter(|n| *n > 0)?;
    let mut links = [0u8; 8];
    for (link, number) in links.iter_mut().zip(numbers) {
        *link = *number;
    }
    Some((count, links))
}

fn found<C: Cost>(heap: Global, net: &ListNetwork, from: u8, to: u8) -> Result<Answer, Fail> {
    let mut searched: Searched<C> = Searched::new(heap, net)?;
    Ok(searched.answer(from, to))
}

// Both searches have to find these links, so that an example worked out wrongly shows.
fn chosen<C: PlainCost>(
    rt: &impl Abort,
    heap: Global,
    net: &ListNetwork,
    from: u8,
    to: u8,
    links: &[u8],
) -> Result<(), Fail> {
    assert_eq!(rt;
        plain_answer::<C>(net, from, to),
        wanted(links),
        "all paths tried"
    );
    assert_eq!(rt; found::<C>(heap, net, from, to)?, wanted(links));
    Ok(())
}

// The row 1 to 5 is 4,000 metres in four links; over link 5 it is 11,000 in three, and link 6 alone is 12,000.
const SHORTCUTS: [Figures; 6] = [
    (1, 2, 1000, 0),
    (2, 3, 1000, 0),
    (3, 4, 1000, 0),
    (4, 5, 1000, 0),
    (3, 5, 9000, 0),
    (5, 1, 12000, 0),
];

#[test]
fn what_the_hop_limit_bars_does_not_compete(rt: HostRuntime) -> Result<(), Fail> {
    let heap = rt.alloc();
    let four = listed(heap, 5, 4, &SHORTCUTS)?;
    chosen::<Metres>(&rt, heap, &four, 1, 5, &[1, 2, 3, 4])?;
    let three = listed(heap, 5, 3, &SHORTCUTS)?;
    chosen::<Metres>(&rt, heap, &three, 1, 5, &[1, 2, 5])?;
    let two = listed(heap, 5, 2, &SHORTCUTS)?;
    chosen::<Metres>(&rt, heap, &two, 1, 5, &[6])?;
    chosen::<Metres>(&rt, heap, &two, 2, 5, &[2, 5])?;
    let one = listed(heap, 5, 1, &SHORTCUTS)?;
    chosen::<Metres>(&rt, heap, &one, 2, 5, &[])
}

// By either cost links 1 and 2 together tie with link 3, and come before it in dictionary order.
const TIED: [Figures; 3] = [(1, 2, 2000, 10), (2, 3, 3000, 20), (1, 3, 5000, 20)];

#[test]
fn fewest_links_on_a_tie_in_cost(rt: HostRuntime) -> Result<(), Fail> {
    let heap = rt.alloc();
    let net = listed(heap, 3, 8, &TIED)?;
    chosen::<Metres>(&rt, heap, &net, 1, 3, &[3])?;
    chosen::<Metres>(&rt, heap, &net, 3, 1, &[3])?;
    chosen::<Loss>(&rt, heap, &net, 1, 3, &[3])
}

// Both ways around are alike in cost: from 1 to 4 they are 2, 3 and 4, 1, and from 4 to 1 they are 1, 4 and 3, 2.
const SQUARE: [Figures; 4] = [
    (2, 4, 500, 7),
    (1, 3, 500, 7),
    (3, 4, 500, 7),
    (1, 2, 500, 7),
];

#[test]
fn dictionary_order_on_a_tie_in_cost_and_count(rt: HostRuntime) -> Result<(), Fail> {
    let heap = rt.alloc();
    let net = listed(heap, 4, 8, &SQUARE)?;
    chosen::<Metres>(&rt, heap, &net, 1, 4, &[2, 3])?;
    chosen::<Metres>(&rt, heap, &net, 4, 1, &[1, 4])?;
    chosen::<Loss>(&rt, heap, &net, 1, 4, &[2, 3])?;
    chosen::<Loss>(&rt, heap, &net, 4, 1, &[1, 4])
}

// Between 1 and 2 link 2 has the lesser loss, but on the way to 3 the loss of link 3 hides it, and the numbers decide.
const HIDDEN: [Figures; 4] = [
    (1, 2, 900, 30),
    (2, 1, 800, 10),
    (2, 3, 100, 40),
    (1, 3, 100, 50),
];

#[test]
fn the_greater_loss_hides_the_lesser(rt: HostRuntime) -> Result<(), Fail> {
    let heap = rt.alloc();
    let net = listed(heap, 3, 8, &HIDDEN)?;
    chosen::<Loss>(&rt, heap, &net, 1, 2, &[2])?;
    chosen::<Loss>(&rt, heap, &net, 1, 3, &[1, 3])?;
    chosen::<Loss>(&rt, heap, &net, 3, 1, &[3, 1])?;
    chosen::<Metres>(&rt, heap, &net, 1, 3, &[4])?;
    chosen::<Metres>(&rt, heap, &net, 1, 2, &[4, 3])
}

const PARALLEL: [Figures; 3] = [(1, 2, 5, 5), (1, 2, 6, 6), (2, 3, 5, 5)];

#[test]
fn links_that_may_not_be_used_are_passed_over(rt: HostRuntime) -> Result<(), Fail> {
    let heap = rt.alloc();
    let mut net = listed(heap, 3, 8, &PARALLEL)?;
    chosen::<Metres>(&rt, heap, &net, 1, 3, &[1, 3])?;
    for link in net.links.iter_mut() {
        link.usable = link.metres == 6;
    }
    chosen::<Metres>(&rt, heap, &net, 1, 2, &[2])?;
    chosen::<Loss>(&rt, heap, &net, 1, 3, &[])
}

#[test]
fn no_path_where_no_link_may_be_used(rt: HostRuntime) -> Result<(), Fail> {
    let heap = rt.alloc();
    let mut net = listed(heap, 3, 8, &PARALLEL)?;
    for link in net.links.iter_mut() {
        link.usable = false;
    }
    chosen::<Metres>(&rt, heap, &net, 1, 2, &[])?;
    chosen::<Loss>(&rt, heap, &net, 3, 1, &[])
}

#[test]
fn from_and_to_are_two_places(rt: HostRuntime) -> Result<(), Fail> {
    let heap = rt.alloc();
    let net = listed(heap, 3, 8, &PARALLEL)?;
    chosen::<Metres>(&rt, heap, &net, 1, 1, &[])?;
    chosen::<Loss>(&rt, heap, &net, 2, 2, &[])?;
    chosen::<Metres>(&rt, heap, &net, 0, 1, &[])?;
    chosen::<Metres>(&rt, heap, &net, 1, 4, &[])?;
    chosen::<Loss>(&rt, heap, &net, 255, 255, &[])
}

// Nine places in a row with five links between neighbours, all alike: 390,625 paths from end to end.
fn row(heap: Global) -> Result<ListNetwork, AllocError> {
    let mut row = listed(heap, 9, 8, &[])?;
    for i in 0..40u8 {
        let link = ListedLink {
            one: i / 5 + 1,
            two: i / 5 + 2,
            metres: 7,
            loss: 7,
            usable: true,
        };
        row.links.push(link)?;
    }
    Ok(row)
}

#[test]
fn the_first_of_very_many_paths(rt: HostRuntime) -> Result<(), Fail> {
    let heap = rt.alloc();
    let row = row(heap)?;
    let along = wanted(&[1, 6, 11, 16, 21, 26, 31, 36]);
    let back = wanted(&[36, 31, 26, 21, 16, 11, 6, 1]);
    assert_eq!(rt; found::<Metres>(heap, &row, 1, 9)?, along);
    assert_eq!(rt; found::<Loss>(heap, &row, 1, 9)?, along);
    assert_eq!(rt; found::<Metres>(heap, &row, 9, 1)?, back);
    assert_eq!(rt; found::<Loss>(heap, &row, 9, 1)?, back);
    Ok(())
}
