ghost use Rattle.std.specs.Prelude.{◌≡◌, ◌<◌, ◌^◌, sum_by, IfOk};
ghost use Rattle.xl_plan.specs.Layout.{place_of, places_from};
ghost use Rattle.xl_plan.specs.Layout.{words_here as words_there};

use std::alloc::Global;
use xc_kernel::Var;
use xl_expr::{VarAt, VarPlan};
use xw_words::{List, Memory};

/// Where the variables of a core stand: one behind the other from word 0 on. Those of other cores have no place.
pub fn variable_places(
    alloc: Global,
    vars: &[Var],
    core: u8,
) -> Result<List<Option<VarPlan>>, Memory>
    requires { sum_by (words_there core) vars.now < 2 ^ 32 }
    ensures { IfOk result (λ places. places ≡ places_from core 0 vars.now) }
{
    let mut places = List::new(alloc);
    let mut next: u32 = 0;
    for var in vars {
        places.push(placed(var, core, next))?;
        next += words_here(var, core);
    }
    Ok(places)
}

fn placed(var: &Var, core: u8, word: u32) -> Option<VarPlan>
    ensures { result ≡ place_of core word var.now }
{
    if var.core == core {
        Some(VarPlan {
            place: VarAt::Near(word),
            words: var.words,
        })
    } else {
        None
    }
}

/// The words of a variable that is on the core.
fn words_here(var: &Var, core: u8) -> u32
    ensures { result ≡ words_there core var.now }
{
    if var.core == core { var.words } else { 0 }
}
