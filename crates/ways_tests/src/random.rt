use crate::plain_ways::plain_way;
use bitmap::map::Map;
use calendar::run::Run;
use dice::Dice;
use layers::window_table::WindowTable;
use layers::windows::Windows;
use network::loss::Loss;
use network::metres::Metres;
use network::network::Network;
use network::usable::Usable;
use network_tests::list_network::{ListNetwork, some_network};
use network_tests::plain_search::PlainCost;
use plant::Plant;
use std::alloc::Global;
use std::process::Abort;
use std::test::Fail;
use ways::find::find_way;
use ways::fit::Fit;
use ways::order::Order;
use ways::space::Space;

// Nine links of four channels, with windows and held runs at random.
fn some_plant(heap: Global, dice: &mut Dice) -> Result<Windows<Map>, Fail> {
    let words: Vec<u64> = vec![in heap; 0; 216]?;
    let mut table = WindowTable::new();
    for _ in 0..dice.small(4) {
        let _ = table.add(
            dice.small(9) as u32 + 1,
            dice.small(168) as u32,
            dice.small(60) as u32 + 1,
        );
    }
    let mut plant = Windows::new(Map::new(words, 9, 4)?, table);
    for _ in 0..dice.small(40) {
        let _ = plant.hold(Run {
            link: dice.small(9).saturating_add(1),
            channel: dice.small(4).saturating_add(1),
            first: dice.small(168),
            hours: dice.small(80).saturating_add(1),
        });
    }
    Ok(plant)
}

fn some_order(dice: &mut Dice) -> Order {
    Order {
        number: 1,
        from: dice.small(7),
        to: dice.small(7),
        width: dice.small(4).saturating_add(1),
        first: dice.small(168),
        hours: dice.small(50).saturating_add(1),
    }
}

// A plant and a network, as the search takes it and as the plain search does, and which of its links may be used.
#[derive(Drop)]
struct Case {
    plant: Windows<Map>,
    net: Network,
    flags: Usable,
    listed: ListNetwork,
    usable: Vec<bool>,
}

impl Case {
    fn some(heap: Global, dice: &mut Dice) -> Result<Case, Fail> {
        let listed = some_network(heap, dice)?;
        let mut usable = Vec::new(heap);
        for link in listed.links.iter() {
            usable.push(link.usable)?;
        }
        Ok(Case {
            plant: some_plant(heap, dice)?,
            net: listed.made(heap)?,
            flags: listed.usable(),
            listed,
            usable,
        })
    }

    // Compares the way that the search gives with the plain search's: channel, count and links.
    fn agree<C: PlainCost>(
        &mut self,
        rt: &impl Abort,
        heap: Global,
        fit: Fit,
        order: Order,
    ) -> Result<(), Fail> {
        let mut space: Space<C> = Space::new(heap)?;
        let found = find_way(&self.plant, &self.net, &self.flags, &mut space, order, fit);
        let wanted = plain_way::<C, _>(&self.plant, &mut self.listed, &self.usable, fit, order);
        match (found, wanted) {
            (None, None) => Ok(()),
            (Some(way), Some(plain)) => {
                assert_eq!(rt; way.channel, plain.channel);
                assert_eq!(rt; way.path.count(), plain.list.count);
                assert_eq!(rt; way.path.numbers(), plain.list.links);
                Ok(())
            }
            _ => Err(Fail::new("one has a way and the other none")),
        }
    }
}

fn round(rt: &impl Abort, heap: Global, dice: &mut Dice) -> Result<(), Fail> {
    let mut case = Case::some(heap, dice)?;
    for _ in 0..4 {
        let order = some_order(dice);
        case.agree::<Metres>(rt, heap, Fit::First, order)?;
        case.agree::<Metres>(rt, heap, Fit::Best, order)?;
        case.agree::<Loss>(rt, heap, Fit::First, order)?;
        case.agree::<Loss>(rt, heap, Fit::Best, order)?;
    }
    Ok(())
}

#[test]
fn ways_are_those_of_the_plain_search(rt: HostRuntime) -> Result<(), Fail> {
    let mut dice = Dice::new(5);
    for _ in 0..300 {
        round(&rt, rt.alloc(), &mut dice)?;
    }
    Ok(())
}
