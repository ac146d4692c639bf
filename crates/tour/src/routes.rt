use network::cost::Cost;
use network::loss::Loss;
use network::metres::Metres;
use network::network::Network;
use network::usable::Usable;
use plant::Plant;
use std::io;
use ways::find::find_way;
use ways::fit::Fit;
use ways::order::Order;
use ways::space::Space;

fn order(from: u8, to: u8, width: u8, first: u8, hours: u8) -> Order {
    Order {
        number: 1,
        from,
        to,
        width,
        first,
        hours,
    }
}

// Finds an order's way and prints it.
fn route<P: Plant, C: Cost>(
    rt: &HostRuntime,
    plant: &P,
    net: &Network,
    space: &mut Space<C>,
    fit: Fit,
    order: Order,
) -> io::Result<()> {
    print!(rt;
        "  find a way from place {} to {}, width {}, from hour {} for {}: ",
        order.from, order.to, order.width, order.first, order.hours
    )?;
    match find_way(plant, net, &Usable::all(), space, order, fit) {
        Some(way) => println!(rt; "{way}"),
        None => println!(rt; "no way"),
    }
}

fn routes<P: Plant, C: Cost>(
    rt: &HostRuntime,
    plant: &P,
    net: &Network,
    fit: Fit,
    orders: [Order; 4],
) -> anyhow::Result<()> {
    let mut space: Space<C> = Space::new(rt.alloc())?;
    for order in orders {
        route(rt, plant, net, &mut space, fit, order)?;
    }
    Ok(())
}

// By length, on the lowest channel that has a path.
pub fn office_routes<P: Plant>(rt: &HostRuntime, plant: &P, net: &Network) -> anyhow::Result<()> {
    let orders = [
        order(1, 3, 1, 10, 5),
        order(1, 2, 1, 166, 2),
        order(2, 3, 1, 20, 1),
        order(1, 2, 3, 0, 1),
    ];
    routes::<P, Metres>(rt, plant, net, Fit::First, orders)
}

// By the worst loss, on the channel with the cheapest path.
pub fn rack_routes<P: Plant>(rt: &HostRuntime, plant: &P, net: &Network) -> anyhow::Result<()> {
    let orders = [
        order(1, 3, 1, 10, 5),
        order(1, 4, 1, 0, 168),
        order(3, 4, 1, 3, 1),
        order(2, 3, 2, 3, 1),
    ];
    routes::<P, Loss>(rt, plant, net, Fit::Best, orders)
}
