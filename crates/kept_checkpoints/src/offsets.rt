ghost use Rattle.std.specs.Prelude.{◌≡◌};
ghost use Rattle.kept_checkpoints.specs.Offsets.{fits_among};

use ds_base::Lrsn;
use ds_model::Body;
use number_map::NumberMap;

/// A place of a log as a number of a map.
pub fn place_number(at: u64) -> Lrsn
    ensures { result ≡ at }
{
    match Lrsn::new(u128::from(at)) {
        Some(number) => number,
        None => unreachable!(),
    }
}

/// Whether a Checkpoint with this body has one of these offsets.
pub fn fits_among(places: &NumberMap<bool>, body: &Body) -> bool
    ensures { result ≡ fits_among places.now body.now }
{
    match body {
        Body::Checkpoint { offset } => places.get(place_number(*offset)).is_some(),
        _ => true,
    }
}
