//! Opening a tray.

ghost use Rattle.std.specs.Prelude.{◌≡◌, IfOk};
ghost use Rattle.std.specs.Result.{result_err};
ghost use Rattle.traylaw.specs.Effects.{after_open};

use crate::shelves::ask_sheet;
use crate::trays::{BurnOwed, OpenTray, Tray};
use refusal::Refusal;
use ring::Degree;
use std::marker::PhantomData;

/// The greatest capacity of a tray.
pub const GREATEST_CAPACITY: usize = 64;

/// Opens a tray for fractions of polynomials of p codes, and gives with it the burn that is owed for it.
pub fn open(p: usize, capacity: usize, sheet: &mut [u16]) -> Result<(OpenTray, BurnOwed), Refusal>
    ensures refused_as_asked { result_err result ≡ (after_open p capacity sheet.old).refusal }
    ensures sheet_cleared { sheet.new ≡ (after_open p capacity sheet.old).sheet }
    ensures tray_empty { IfOk result (λ t. (t.0.p ≡ p) × (t.0.capacity ≡ capacity) × (t.0.count ≡ 0)) }
{
    Degree::try_from(p)?;
    if !(1..=GREATEST_CAPACITY).contains(&capacity) {
        return Err(Refusal::Capacity);
    }
    ask_sheet(p, capacity, sheet)?;
    let tray = Tray {
        p,
        capacity,
        count: 0,
        state: PhantomData,
    };
    tray.clear(sheet);
    Ok((tray, BurnOwed { seal: () }))
}
