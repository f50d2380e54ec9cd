//! The words of the command line as an order.

ghost use Rattle.std.specs.Prelude.{◌≡◌, Some, option_map, IfOk};
ghost use Rattle.ds_base.specs.declared.names.Sizes.{Sizes as AnySizes};
ghost use Rattle.group_words.specs.Orders.{AreSizes};
ghost use Rattle.picture_call.specs.Orders as spec;
ghost use Rattle.picture_call.specs.declared.order.Order.TheVariants as orders;

use crate::order::Order;
use crate::sizes::sizes_in;
use ds_base::{NoMemory, Sizes};
use number_text::number_of;
use run_picture::Cut;
use std::alloc::Global;

fn whole() -> Cut
    ensures { result ≡ spec.whole }
{
    Cut {
        from: None,
        to: None,
    }
}

// A cut with one option more. Each stands once.
fn with_number(cut: Cut, option: &[u8], number: u64) -> Option<Cut>
    ensures { result ≡ spec.with_number cut option.now number }
{
    if option == b"--from".as_slice() && cut.from.is_none() {
        Some(Cut {
            from: Some(number),
            to: cut.to,
        })
    } else if option == b"--to".as_slice() && cut.to.is_none() {
        Some(Cut {
            from: cut.from,
            to: Some(number),
        })
    } else {
        None
    }
}

fn with_option(cut: Cut, option: &[u8], value: &[u8]) -> Option<Cut>
    ensures { result ≡ spec.with_option cut option.now value.now }
{
    with_number(cut, option, number_of(value)?)
}

// An option in one word: its name and its number stand on both sides of the first `=`.
#[tactic(auto, using(crate::proofs::Parting::parted_step))]
fn with_joined(cut: Cut, word: &[u8]) -> Option<Cut>
    ensures { result ≡ spec.with_joined cut word.now }
{
    for at in 0..word.len() {
        if word[at] == b'=' {
            return with_option(cut, &word[..at], &word[at + 1..]);
        }
    }
    None
}

fn is_option(word: &[u8]) -> bool
    ensures { result ≡ spec.is_option word.now }
{
    word == b"--from".as_slice() || word == b"--to".as_slice()
}

fn two_words(a: &[u8], b: &[u8]) -> Option<Cut>
    ensures { result ≡ spec.two_words a.now b.now }
{
    if is_option(a) {
        with_option(whole(), a, b)
    } else {
        with_joined(with_joined(whole(), a)?, b)
    }
}

fn three_words(a: &[u8], b: &[u8], c: &[u8]) -> Option<Cut>
    ensures { result ≡ spec.three_words a.now b.now c.now }
{
    if is_option(a) {
        with_joined(with_option(whole(), a, b)?, c)
    } else {
        with_option(with_joined(whole(), a)?, b, c)
    }
}

fn four_words(a: &[u8], b: &[u8], c: &[u8], d: &[u8]) -> Option<Cut>
    ensures { result ≡ spec.four_words a.now b.now c.now d.now }
{
    with_option(with_option(whole(), a, b)?, c, d)
}

// The cut of the options that the words give, each once.
fn cut_of(words: &[String]) -> Option<Cut>
    ensures { result ≡ spec.cut_of (spec.texts words.now) }
{
    match words {
        [] => Some(whole()),
        [a] => with_joined(whole(), a.as_bytes()),
        [a, b] => two_words(a.as_bytes(), b.as_bytes()),
        [a, b, c] => three_words(a.as_bytes(), b.as_bytes(), c.as_bytes()),
        [a, b, c, d] => four_words(a.as_bytes(), b.as_bytes(), c.as_bytes(), d.as_bytes()),
        _ => None,
    }
}

fn is_in_order(cut: &Cut) -> bool
    ensures { result ≡ spec.is_in_order cut.now }
{
    let from = cut.from.unwrap_or(1);
    1 <= from && from <= cut.to.unwrap_or(from)
}

fn drawn(cut: Cut) -> Option<Order>
    ensures { result ≡ spec.drawn cut }
{
    if is_in_order(&cut) {
        Some(Order::Draw(cut))
    } else {
        None
    }
}

fn draw_order(words: &[String]) -> Option<Order>
    ensures { result ≡ spec.draw_order (spec.texts words.now) }
{
    drawn(cut_of(words)?)
}

fn why_order(sizes: Option<Sizes>) -> Option<Order>
    ensures { result ≡ option_map orders.Why sizes }
{
    match sizes {
        Some(sizes) => Some(Order::Why(sizes)),
        None => None,
    }
}

fn is_why(words: &[String]) -> bool
    ensures { result ≡ spec.is_why (spec.texts words.now) }
{
    match words {
        [first, _, ..] => first.as_bytes() == b"why".as_slice(),
        _ => false,
    }
}

fn options_in(words: &[String]) -> &[String]
    ensures { spec.texts result.now ≡ spec.options_in (spec.texts words.now) }
{
    match words {
        [_, _, options @ ..] => options,
        _ => &[],
    }
}

/// The order that the words give, if they are one: none, or `--from N` or `--to N` or both, also as `--from=N`, for a picture; or
/// `why NAME`, behind it the options that `play` was given.
pub fn read_words(alloc: Global, words: &[String]) -> Result<Option<Order>, NoMemory>
    ensures order { IfOk result (λ order. order ≡ spec.order_of (spec.texts words.now)) }
    ensures ranges { IfOk result (λ order. (s : AnySizes) → order ≡ Some (orders.Why s) → AreSizes s) }
{
    if is_why(words) {
        Ok(why_order(sizes_in(alloc, options_in(words))?))
    } else {
        Ok(draw_order(words))
    }
}
