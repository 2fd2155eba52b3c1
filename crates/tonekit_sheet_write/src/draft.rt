// What a sheet is written from.
ghost use Rattle.std.specs.Prelude.{◌≡◌};

use tonekit_sheet_plan::{Plan, Rows};

// The rows of a pack, and a plan of the lists of its bytes.
#[derive(Clone, Copy)]
pub struct Draft<'a> {
    pub rows: Rows<'a>,
    pub plan: &'a Plan<'a>,
    pub ghost same: { plan.now.bytes.now ≡ rows.view.bytes.now },
}
