use orders::call::{Call, Slot};
use orders::request::Request;
use ways::route::Route;

fn request(number: u32, from: u32, to: u32, first: u32, hours: u32) -> Request {
    Request {
        number,
        from,
        to,
        width: 1,
        first,
        hours,
    }
}

fn book(number: u32, from: u32, to: u32, first: u32, hours: u32) -> Call {
    Call::Book(request(number, from, to, first, hours))
}

// Places an order for one hour on one channel of one link.
fn place(number: u32, from: u32, to: u32, first: u32, channel: u32, link: u32) -> Call {
    let route = Route {
        links: [link, 0, 0, 0, 0, 0, 0, 0],
        count: 1,
    };
    Call::Place(request(number, from, to, first, 1), channel, route)
}

// The order lines of the sample file, one call each.
pub fn sample_calls() -> [Slot; 7] {
    [
        book(11, 1, 3, 10, 5),
        book(12, 1, 3, 12, 4),
        Call::Book(Request {
            width: 2,
            ..request(13, 1, 2, 166, 4)
        }),
        place(14, 1, 2, 1, 2, 1),
        place(15, 2, 3, 22, 1, 2),
        Call::Cancel(11),
        Call::Shift(12, 10),
    ]
    .map(Slot::from)
}
