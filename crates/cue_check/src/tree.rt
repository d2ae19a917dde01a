// Refusal 71: the marks beside the tree that the central builder writes.
ghost use Rattle.std.specs.Prelude.{◌≤◌, ◌≡◌, ◌&&◌, length, eqb};
ghost use Rattle.base.specs.Limits.{max_links};
ghost use Rattle.base.specs.Test.{every};
ghost use Rattle.plan.specs.Links.{links_of};
ghost use Rattle.plan.specs.Refusal.{plan_refusal};
ghost use Rattle.cue.specs.Calls.{end_agrees, branches_agree};
ghost use Rattle.cue_check.specs.Bytes.{byte_agrees};

use field::Marks;
use node::BRANCH;
use plan::Plan;

// Whether an end's mark is Branch exactly where its link's byte is 1.
fn end_agrees(byte: u8, mark: u8) -> bool
    ensures { result ≡ end_agrees (eqb byte 1) mark }
{
    (byte == 1) == (mark == BRANCH)
}

// Whether both ends' marks are.
fn link_agrees(byte: u8, lower: u8, higher: u8) -> bool
    ensures { result ≡ (end_agrees (eqb byte 1) lower && end_agrees (eqb byte 1) higher) }
{
    end_agrees(byte, lower) && end_agrees(byte, higher)
}

// Whether all links' are, where bytes are the tree's.
fn links_agree(bytes: &[u8], marks: &Marks) -> bool
    requires { length bytes.now ≤ max_links }
    ensures { result ≡ every (length bytes.now) (byte_agrees bytes.now marks.now) }
{
    (0..bytes.len()).all(|k| link_agrees(bytes[k], marks[2 * k], marks[2 * k + 1]))
}

// Not 71, with L bytes to build the tree in.
pub fn agrees(plan: &Plan, marks: &Marks, bytes: &mut [u8]) -> bool
    requires { (plan_refusal plan.now ≡ 0) × (length bytes.old ≡ links_of plan.now) }
    ensures { result ≡ branches_agree plan.now marks.now }
{
    plan_tree::grow(plan, bytes);
    links_agree(bytes, marks)
}
