//! Which of the two roots is the current one.
ghost use Rattle.std.specs.Prelude.{◌≡◌, Some, IfOk, IfErr};
ghost use Rattle.psu_pages.specs.Finding.{IsPicked, IsNonePicked};

use crate::{BadImage, Root};

/// The current root, its number, and whether the other gate is open too.
#[derive(Clone, Copy, Debug, Drop)]
pub(crate) struct Picked {
    pub root: Root,
    pub number: u64,
    pub both: bool,
}

/// Picks the current root by the numbers of the roots whose gates are open.
pub(crate) fn pick(first: Option<u64>, second: Option<u64>) -> Result<Picked, BadImage>
    ensures picked { IfOk result (λ p. IsPicked first second p.root p.number p.both) }
    ensures none { IfErr result (IsNonePicked first second) }
{
    match (first, second) {
        (None, None) => Err(BadImage::NoRoot),
        (Some(number), None) => Ok(Picked {
            root: Root::First,
            number,
            both: false,
        }),
        (None, Some(number)) => Ok(Picked {
            root: Root::Second,
            number,
            both: false,
        }),
        (Some(first), Some(second)) => between(first, second),
    }
}

// Picks the current root of two that are open.
fn between(first: u64, second: u64) -> Result<Picked, BadImage>
    ensures picked { IfOk result (λ p. IsPicked (Some first) (Some second) p.root p.number p.both) }
    ensures none { IfErr result (IsNonePicked (Some first) (Some second)) }
{
    if first == second {
        return Err(BadImage::BadRoot);
    }
    if first < second {
        return Ok(Picked {
            root: Root::Second,
            number: second,
            both: true,
        });
    }
    Ok(Picked {
        root: Root::First,
        number: first,
        both: true,
    })
}
