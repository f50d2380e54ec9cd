//! The sizes of the group that has played a script, by the options that `play` was given.

ghost use Rattle.std.specs.Prelude.{◌≡◌, ◌∷◌, codes, IfOk, IfSome};
ghost use Rattle.group_words.specs.Orders.{AreSizes, HasSizes};
ghost use Rattle.picture_call.specs.Orders.{sizes_in, sizes_of, texts};

use ds_base::{NoMemory, Sizes};
use group_words::{Order, WordsFault, read_words, size_laws};
use std::alloc::Global;

// The words of an order to play with these options.
fn play_words(alloc: Global, options: &[String]) -> Result<Vec<String>, NoMemory>
    ensures { IfOk result (λ words. texts words.items ≡ codes "play" ∷ texts options.now) }
{
    let mut words = Vec::new(alloc);
    words.push(String::from_str(alloc, "play")?)?;
    for option in options {
        words.push(option.clone()?)?;
    }
    Ok(words)
}

// The sizes of an order to play.
fn sizes_of(order: Order) -> Option<Sizes>
    requires { HasSizes order }
    ensures sizes { result ≡ sizes_of order }
    ensures ranges { IfSome result AreSizes }
{
    match order {
        Order::Play { sizes, .. } => Some(sizes),
        Order::Show
        | Order::Make { .. }
        | Order::Work { .. }
        | Order::Check
        | Order::Copy { .. }
        | Order::Recover { .. } => None,
    }
}

/// The sizes that `play` takes from these options, if they are its.
pub fn sizes_in(alloc: Global, options: &[String]) -> Result<Option<Sizes>, NoMemory>
    ensures sizes { IfOk result (λ sizes. sizes ≡ sizes_in (texts options.now)) }
    ensures ranges { IfOk result (λ sizes. IfSome sizes AreSizes) }
{
    size_laws();
    let words = play_words(alloc, options)?;
    match read_words(alloc, &words) {
        Err(WordsFault::NoMemory) => Err(NoMemory),
        Err(WordsFault::Refused) => Ok(None),
        Ok(order) => Ok(sizes_of(order)),
    }
}
