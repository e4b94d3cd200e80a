// Registers moved within their own array, in place: down, and up.
ghost use Rattle.std.specs.Prelude.{◌≡◌, ℕ, ◌+◌, ◌-◌, ◌≤◌, ◌<◌, get_or};
ghost use Rattle.model.specs.Fill.{over};

/// The first n registers become those from $from up.
pub(crate) fn slide(general: &mut [u64; 256], from: u64, n: u64)
    requires { (0 < from) × (from + n ≤ 256) }
    ensures { general.new ≡ over (λ (k : ℕ). get_or general.old (from + k) 0) 0 n general.old }
{
    general.copy_within(from as usize..(from + n) as usize, 0);
}

/// $k becomes $(k − by) for each k from `by` up to, not including, `to`.
pub(crate) fn slide_up(general: &mut [u64; 256], by: u64, to: u64)
    requires { to ≤ 256 }
    ensures { general.new ≡ over (λ (k : ℕ). get_or general.old (k - by) 0) by to general.old }
{
    if by < to {
        general.copy_within(..(to - by) as usize, by as usize);
    }
}
