// What is found as leads are followed.
ghost use Rattle.std.specs.Prelude.{◌≡◌, [], ◌∷◌, ◌++◌, OnOk};
ghost use Rattle.sb_profile.specs.Contents.{Contents, Says};
ghost use Rattle.sb_profile.specs.Following.{from, to, to_each};
ghost use Rattle.sb_profile.specs.Steps.Sights.{seen_of, shows_unfit, shows_absent};
ghost use Rattle.sb_profile.specs.Steps.Found.{Leads, Notes, FindsAs, FindsOnly};

use crate::following::places::Place;
use crate::reading::lowest::lower;
use crate::sights::{Seen, Sight, look};
use sb_schema::LentReferences;
use sb_step::StepFile;
use std::alloc::{AllocError, Global};

/// The leads that were found, each a place and the number that is wanted there, and the lowest
/// instance that is not of its row and the lowest that is absent.
#[derive(Drop)]
pub(crate) struct Found {
    pub leads: Vec<(Place, u32)>,
    pub unfit: Option<u32>,
    pub absent: Option<u32>,
}

/// Looks at an instance, and finds what follows from it.
pub(crate) fn see<'a, V: Seen<'a>>(
    alloc: Global,
    file: &StepFile<'a>,
    number: u32,
    found: &mut Found,
) -> Result<(), AllocError>
    ensures { OnOk result ((c : Contents) → Says file.now c
        → FindsAs V.entity V.follow c number found.old found.new) }
{
    let mut sight = look::<V>(alloc, file, number)?;
    note(found, number, &sight);
    push_seen(found, &mut sight)
}

/// Looks at an instance from which nothing follows.
pub(crate) fn see_only<'a, V: Seen<'a>>(
    alloc: Global,
    file: &StepFile<'a>,
    number: u32,
    found: &mut Found,
) -> Result<(), AllocError>
    ensures { OnOk result ((c : Contents) → Says file.now c
        → FindsOnly V.entity c number found.old found.new) }
{
    let sight = look::<V>(alloc, file, number)?;
    note(found, number, &sight);
    Ok(())
}

pub(crate) fn push_seen<'a, V: Seen<'a>>(
    found: &mut Found,
    sight: &mut Sight<V>,
) -> Result<(), AllocError>
    ensures { OnOk result (Leads (from (seen_of V.fields sight.old) V.follow) found.old found.new) }
{
    match sight {
        Sight::Of(view) => view.push(found),
        _ => Ok(()),
    }
}

/// Keeps the number, if the instance is not of its row or absent.
pub(crate) fn note<V>(found: &mut Found, number: u32, sight: &Sight<V>)
    ensures { Notes (shows_unfit sight.now) (shows_absent sight.now) number found.old found.new }
{
    match sight {
        Sight::Unfit => found.unfit = lower(number, found.unfit),
        Sight::Absent => found.absent = lower(number, found.absent),
        _ => {}
    }
}

/// Appends the leads that were found beside, and takes what was kept there.
pub(crate) fn join(found: &mut Found, beside: &Found) -> Result<(), AllocError>
    ensures leads { OnOk result (found.new.leads.items
        ≡ found.old.leads.items ++ beside.now.leads.items) }
    ensures unfit { OnOk result (found.new.unfit ≡ beside.now.unfit) }
    ensures absent { OnOk result (found.new.absent ≡ beside.now.absent) }
{
    found.leads.extend_from_slice(beside.leads.as_slice())?;
    found.unfit = beside.unfit;
    found.absent = beside.absent;
    Ok(())
}

/// Appends a lead.
pub(crate) fn lead(found: &mut Found, at: Place, number: u32) -> Result<(), AllocError>
    ensures { OnOk result (Leads ((at, number) ∷ []) found.old found.new) }
{
    found.leads.push((at, number))?;
    Ok(())
}

/// Appends a lead, if there is one.
pub(crate) fn lead_to(found: &mut Found, at: Place, number: Option<u32>) -> Result<(), AllocError>
    ensures { OnOk result (Leads (to at number) found.old found.new) }
{
    match number {
        Some(number) => lead(found, at, number),
        None => Ok(()),
    }
}

/// Appends a lead to each.
pub(crate) fn lead_each(found: &mut Found, at: Place, numbers: &[u32]) -> Result<(), AllocError>
    ensures { OnOk result (Leads (to_each at numbers.now) found.old found.new) }
{
    'numbers: for number in numbers {
        lead(found, at, *number)?;
    }
    Ok(())
}

/// Appends a lead to each that is left.
pub(crate) fn lead_lent(
    found: &mut Found,
    at: Place,
    numbers: &mut LentReferences<'_>,
) -> Result<(), AllocError>
    ensures { OnOk result (Leads (to_each at numbers.old) found.old found.new) }
{
    'numbers: while let Some(number) = numbers.next() {
        lead(found, at, number)?;
    }
    Ok(())
}
