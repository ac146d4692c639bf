ghost use Rattle.std.specs.Prelude.{◌≡◌, if◌then◌else◌, Some, None, MatchResult};
ghost use Rattle.network.specs.Limits.{two_places};
ghost use Rattle.orders.specs.Calls.{number_fits, width_fits, order_of};
ghost use Rattle.ways.specs.Hours.{hours_fit, block_fits};
ghost use Rattle.planner.specs.Seen.{seen};
ghost use Rattle.planner.specs.Taking.{fault_in};

use super::Planner;
use network::cost::Cost;
use orders::refusal::Refusal;
use orders::request::Request;
use plant::Plant;
use ways::order::Order;

// Whether an order may have the number.
fn number_fits(number: u32) -> bool
    ensures { result ≡ number_fits number }
{
    (1..=9999).contains(&number)
}

// Whether an order may be so wide.
fn width_fits(width: u32) -> bool
    ensures { result ≡ width_fits width }
{
    (1..=4).contains(&width)
}

// Whether the hours asked for are hours of the week. An order asks the same of bytes; a request has numbers of any value.
fn hours_fit(request: Request) -> bool
    ensures { result ≡ hours_fit (order_of request) }
{
    request.first < 168 && (1..=168).contains(&request.hours)
}

// Whether v and w are two different places out of so many. A network asks the same of bytes.
fn two_places(places: u8, v: u32, w: u32) -> bool
    ensures { result ≡ two_places places v w }
{
    let all = 1..=u32::from(places);
    all.contains(&v) && all.contains(&w) && v != w
}

impl<P: Plant, C: Cost> Planner<P, C> {
    // The order that is asked for, if no check fails that book and place share; else the first that fails.
    pub(super) fn checked_order(&self, request: Request) -> Result<Order, Refusal>
        ensures { MatchResult result
            (λ o. (None ≡ fault_in (seen P.meaning C.kind self.now) request) × (o ≡ order_of request))
            (λ why. Some why ≡ fault_in (seen P.meaning C.kind self.now) request) }
    {
        if self.plant.size().links < self.net.link_count() {
            return Err(Refusal::FewerLinks);
        }
        if !number_fits(request.number) {
            return Err(Refusal::BadNumber);
        }
        if !two_places(self.net.places(), request.from, request.to) {
            return Err(Refusal::BadEnds);
        }
        if !width_fits(request.width) {
            return Err(Refusal::BadWidth);
        }
        if !hours_fit(request) {
            return Err(Refusal::BadHours);
        }
        if self.book.has(request.number) {
            return Err(Refusal::StandsAlready);
        }
        if self.book.is_full() {
            return Err(Refusal::BookFull);
        }
        Ok(Order {
            number: request.number as u16,
            from: request.from as u8,
            to: request.to as u8,
            width: request.width as u8,
            first: request.first as u8,
            hours: request.hours as u8,
        })
    }

    // The first channel, if the block from it up lies within the plant's channels.
    pub(super) fn checked_block(&self, channel: u32, width: u8) -> Option<u8>
        ensures { result ≡ (if block_fits (P.meaning self.now.plant).channels channel width then Some channel else None) }
    {
        let channels = u32::from(self.plant.size().channels);
        let end = channel.checked_add(u32::from(width))?;
        if 1 <= channel && end <= channels + 1 {
            Some(channel as u8)
        } else {
            None
        }
    }
}
