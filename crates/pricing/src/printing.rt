// Prices as bytes.
ghost use Rattle.std.specs.Prelude.{◌≡◌, ℕ, ◌≤◌, List, ◌++◌, length, take, drop};
ghost use Rattle.std.proofs.Common.{length-append, sym, ap, ◌∙◌, arith, take_at, drop_at};
ghost use Rattle.pricing.specs.Shown.{clock_bytes, fetches_first_bytes, in_bytes};
ghost use Rattle.pricing.specs.Bytes.{in_bytes_apart, in_bytes_length};
ghost use Rattle.pricing.specs.Prices.{same_price};

use crate::{Clock, FetchPrice, FetchesFirst, PriceModel};

// A price has at most so many bytes.
pub const PRICE_ROOM: usize = 12;

// A price model that also gives bytes for a price, alike exactly for equal prices.
pub trait PrintableModel: PriceModel {
    ghost shown: { Self → Self.Price → List ℕ };

    // Writes the price's bytes at the front of `room` and answers how many; the rest of `room` stays as it was.
    fn bytes(&self, price: Self::Price, room: &mut [u8; PRICE_ROOM]) -> usize
        ensures count { result ≡ length (shown self.now price) }
        ensures written { room.new ≡ shown self.now price ++ drop (length (shown self.now price)) room.old };

    ghost apart: { (m : Self) (a b : Self.Price) → shown m a ≡ shown m b → a ≡ b };

    ghost short: { (m : Self) (price : Self.Price) → length (shown m price) ≤ 12 };
}

impl PrintableModel for Clock {
    ghost shown = { λ _ price. clock_bytes price };

    ghost apart = { λ m a b e. in_bytes_apart 7 a b e };

    ghost short = { λ m price. omega (arith, in_bytes_length 8 price) };

    fn bytes(&self, price: u64, room: &mut [u8; PRICE_ROOM]) -> usize {
        room[0..8].copy_from_slice(&price.to_be_bytes());
        8
    }
}

impl PrintableModel for FetchesFirst {
    ghost shown = { λ _ price. fetches_first_bytes price };

    ghost apart = { λ m a b e.
        let front : in_bytes 4 a.fetches ≡ in_bytes 4 b.fetches =
        sym (take_at _ (in_bytes 8 a.ms) 4 (in_bytes_length 4 a.fetches)) ∙ ap (take 4) e ∙ take_at _ (in_bytes 8 b.ms) 4 (in_bytes_length 4 b.fetches) in
        let back : in_bytes 8 a.ms ≡ in_bytes 8 b.ms =
        sym (drop_at (in_bytes 4 a.fetches) _ 4 (in_bytes_length 4 a.fetches)) ∙ ap (drop 4) e ∙ drop_at (in_bytes 4 b.fetches) _ 4 (in_bytes_length 4 b.fetches) in
        same_price a b (in_bytes_apart 3 a.fetches b.fetches front) (in_bytes_apart 7 a.ms b.ms back) };

    ghost short = { λ m price. omega (arith, length-append (in_bytes 4 price.fetches) (in_bytes 8 price.ms), in_bytes_length 4 price.fetches, in_bytes_length 8 price.ms) };

    fn bytes(&self, price: FetchPrice, room: &mut [u8; PRICE_ROOM]) -> usize {
        room[0..4].copy_from_slice(&price.fetches.to_be_bytes());
        room[4..12].copy_from_slice(&price.ms.to_be_bytes());
        12
    }
}
