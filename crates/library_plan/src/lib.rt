// Plans from C: checked, read, written, their costs, their ceiling, their tree. include/muruapy.h declares all of it.
#![tactic(auto)]

ghost use Rattle.std.specs.Prelude.{◌≡◌};
ghost use Rattle.base.specs.Ceiling.{ceiling};
ghost use Rattle.plan.specs.Refusal.{plan_refusal};
ghost use Rattle.plan_file.specs.Reading.{read_refusal};
ghost use Rattle.plan_file.specs.Writing.{write_plan};
ghost use Rattle.plan_tree.specs.Tree.{central_tree};
ghost use Rattle.library_plan.specs.Lent.{plan_into, cost_or_none};

use base::{MAX_LINKS, NONE};
use plan::Plan;
use refusal::refusal_in;

// The first of a plan's refusals 11 to 18 that applies to the bytes, or 0 for taken.
#[unsafe(no_mangle)]
pub extern "C" fn muruapy_plan_check(bytes: &[u8]) -> u32
    ensures { result ≡ read_refusal bytes.now }
{
    refusal_in(plan_file::check(bytes))
}

// A plan's bytes read into a lent plan: 11 to 18.
#[unsafe(no_mangle)]
pub extern "C" fn muruapy_plan_read(bytes: &[u8], plan: &mut Plan) -> u32
    ensures { record { refusal = result; state = plan.new } ≡ plan_into bytes.now plan.old }
{
    match plan_file::read(bytes) {
        Ok(read) => {
            *plan = read;
            0
        }
        Err(refusal) => refusal.number(),
    }
}

// The check of any plan value: 14 to 18.
#[unsafe(no_mangle)]
pub extern "C" fn muruapy_plan_value_check(plan: &Plan) -> u32
    ensures { result ≡ plan_refusal plan.now }
{
    refusal_in(plan_check::check(plan))
}

// Any plan value, written: 14 to 18, then 22.
#[unsafe(no_mangle)]
pub extern "C" fn muruapy_plan_write(plan: &Plan, bytes: &mut [u8]) -> u32
    ensures { record { refusal = result; state = bytes.new } ≡ write_plan plan.now bytes.old }
{
    refusal_in(plan_file::write(plan, bytes))
}

// The cost of a link of any plan value, none for what is no link of it.
#[unsafe(no_mangle)]
pub extern "C" fn muruapy_link_cost(plan: &Plan, link: u16) -> u32
    ensures { result ≡ cost_or_none plan.now link }
{
    if plan::links(plan) <= link || MAX_LINKS <= link {
        return NONE as u32;
    }
    plan::cost(plan, link as usize)
}

// The ceiling of any numbers of modules and links.
#[unsafe(no_mangle)]
pub extern "C" fn muruapy_ceiling(modules: u16, links: u16) -> u32
    ensures { result ≡ ceiling modules links }
{
    plan::ceiling(modules, links)
}

// The central tree of any plan value: 14 to 18, then 20.
#[unsafe(no_mangle)]
pub extern "C" fn muruapy_tree(plan: &Plan, tree: &mut [u8]) -> u32
    ensures { record { refusal = result; state = tree.new } ≡ central_tree plan.now tree.old }
{
    refusal_in(plan_tree::build(plan, tree))
}
