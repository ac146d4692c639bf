// An order as a customer asks for it, in numbers of any value.
#[derive(Clone, Copy, Debug, PartialEq, Eq)]
pub struct Request {
    pub number: u32,
    pub from: u32,
    pub to: u32,
    pub width: u32,
    pub first: u32,
    pub hours: u32,
}
