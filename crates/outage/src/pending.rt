// The slots of what is missing, which the drains empty.
ghost use Rattle.std.specs.Prelude.{◌≡◌};
ghost use Rattle.model.specs.Rules as Rules;

// So many samples more in a slot.
pub fn add_pending(slot: &mut Option<u64>, n: u64)
    ensures { slot.new ≡ Rules.added slot.old n }
{
    *slot = match *slot {
        None => Some(n),
        Some(held) => Some(held.saturating_add(n)),
    };
}
