use network::cost::Cost;
use network::network::Network;
use network::path::Path;

// A path with its cost.
#[derive(Clone, Copy)]
struct Priced<C> {
    cost: C,
    path: Path,
}

// The links walked from a start, where they led, and the places touched.
#[derive(Clone, Copy)]
struct Walk<C> {
    priced: Priced<C>,
    at: u8,
    touched: [bool; 33],
}

// Whether x is chosen rather than y. Two lists of one length are in dictionary order as their arrays are.
fn comes_first<C: Cost>(x: Priced<C>, y: Priced<C>) -> bool {
    if !x.cost.at_most(y.cost) || !y.cost.at_most(x.cost) {
        return x.cost.at_most(y.cost);
    }
    (x.path.count(), x.path.numbers()) < (y.path.count(), y.path.numbers())
}

fn lesser<C: Cost>(x: Option<Priced<C>>, y: Priced<C>) -> Priced<C> {
    match x {
        Some(best) => if comes_first(y, best) { y } else { best },
        None => y,
    }
}

impl<C: Cost> Walk<C> {
    fn starting(zero: C, from: u8) -> Walk<C> {
        let mut touched = [false; 33];
        if let Some(place) = touched.get_mut(usize::from(from)) {
            *place = true;
        }
        let priced = Priced {
            cost: zero,
            path: Path::new(),
        };
        Walk {
            priced,
            at: from,
            touched,
        }
    }

    // The walk with one more link, where that leads on to a place not yet touched.
    fn further(self, net: &Network, number: u8) -> Option<Walk<C>> {
        let link = net.link(number)?;
        let v = link.far_end(self.at)?;
        let mut touched = self.touched;
        if v > 32 || touched[usize::from(v)] {
            return None;
        }
        touched[usize::from(v)] = true;
        let mut path = self.priced.path;
        path.push(number);
        let cost = self.priced.cost.join(C::of_link(&link));
        Some(Walk {
            priced: Priced { cost, path },
            at: v,
            touched,
        })
    }
}

// The chosen one of all paths that begin with the walk and have at most `left` links more.
fn best_from<C: Cost>(net: &Network, walk: Walk<C>, to: u8, left: u8) -> Option<Priced<C>> {
    if walk.at == to {
        return Some(walk.priced);
    }
    if left == 0 {
        return None;
    }
    let mut best = None;
    for number in 1..net.link_count().saturating_add(1) {
        if let Some(longer) = walk.further(net, number) {
            if let Some(found) = best_from(net, longer, to, left - 1) {
                best = Some(lesser(best, found));
            }
        }
    }
    best
}

// The chosen path over all links, found the plain way, to measure against: by going through all paths.
pub fn plain_path<C: Cost>(net: &Network, zero: C, from: u8, to: u8) -> Option<Path> {
    if from == to {
        return None;
    }
    best_from(net, Walk::starting(zero, from), to, net.hops()).map(|best| best.path)
}
