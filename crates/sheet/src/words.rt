// Tables and prices in words.
ghost use Rattle.std.specs.Prelude.{◌≡◌, ◌++◌, Some, codes, decimal};
ghost use Rattle.sheet.specs.Names.{name_of};

use pricing::{Clock, FetchPrice, FetchesFirst, PriceModel};
use std::fmt;

// A table in words.
pub fn table_name(table: u8) -> &'static str
    ensures { result.now ≡ name_of table }
{
    match table {
        0 => "films",
        1 => "reels",
        2 => "cartridges",
        _ => "shelves",
    }
}

// A price of Clock.
#[derive(Clone, Copy, PartialEq, Eq, Debug)]
pub struct Milliseconds(pub u64);

impl fmt::Display for Milliseconds {
    ghost output = { λ price. Some (decimal price.0 ++ codes " ms") };

    fn fmt<W: fmt::Write>(&self, f: &mut fmt::Formatter<W>) -> fmt::Result {
        write!(f, "{} ms", self.0)
    }
}

// A price of Fetches first.
#[derive(Clone, Copy, PartialEq, Eq, Debug)]
pub struct FetchesAndTime(pub FetchPrice);

impl fmt::Display for FetchesAndTime {
    ghost output = { λ price. Some (decimal price.0.fetches ++ (codes " fetches and " ++ (decimal price.0.ms ++ codes " ms"))) };

    fn fmt<W: fmt::Write>(&self, f: &mut fmt::Formatter<W>) -> fmt::Result {
        write!(f, "{} fetches and {} ms", self.0.fetches, self.0.ms)
    }
}

// A price model whose prices can be put in words.
pub trait Worded: PriceModel {
    // A price in words.
    type Words: fmt::Display + Drop;

    // The model's name.
    const NAME: &'static str;

    // What its prices go by.
    const TITLE: &'static str;

    fn words(&self, price: Self::Price) -> Self::Words;
}

impl Worded for Clock {
    type Words = Milliseconds;

    const NAME: &'static str = "Clock";

    const TITLE: &'static str = "by the clock";

    fn words(&self, price: u64) -> Milliseconds
        ensures { result ≡ record { 0 = price } }
    {
        Milliseconds(price)
    }
}

impl Worded for FetchesFirst {
    type Words = FetchesAndTime;

    const NAME: &'static str = "Fetches first";

    const TITLE: &'static str = "fetches first";

    fn words(&self, price: FetchPrice) -> FetchesAndTime
        ensures { result ≡ record { 0 = price } }
    {
        FetchesAndTime(price)
    }
}
