// Sets of labels: a u64 whose bit k stands for label k. specs/ has the definitions. A label is a number and no type of
// its own: sheets write any number, and each is tested where it is used, so that a type would be made for one call.
#![tactic(auto)]

ghost use Rattle.std.specs.Prelude.{◌≡◌, ◌^◌, ◌<◌};
ghost use Rattle.request.specs.Range.{label_count};
ghost use Rattle.labels.specs.Labels.{member as member_of, subset as subset_of, is_empty, is_just};
ghost use Rattle.labels.specs.Labels.{insert as insert_of, without as without_of, remove as remove_of};

// Just label k.
pub fn only(k: u32) -> u64
    requires { k < label_count }
    ensures { result ≡ 2 ^ k }
{
    1u64 << k
}

pub fn member(d: u64, k: u32) -> bool
    requires { k < label_count }
    ensures { result ≡ member_of d k }
{
    (d >> k) % 2 == 1
}

pub fn subset(s: u64, d: u64) -> bool
    ensures { result ≡ subset_of s d }
{
    s & d == s
}

pub fn is_empty(d: u64) -> bool
    ensures { result ≡ is_empty d }
{
    d == 0
}

// One label, and k is in the set.
pub fn is_just(d: u64, k: u32) -> bool
    requires { k < label_count }
    ensures { result ≡ is_just d k }
{
    (u64::count_ones(d) == 1) & member(d, k)
}

pub fn insert(d: u64, k: u32) -> u64
    requires { k < label_count }
    ensures { result ≡ insert_of d k }
{
    d | only(k)
}

// The labels of d that are not in s.
pub fn without(d: u64, s: u64) -> u64
    ensures { result ≡ without_of d s }
{
    d - (d & s)
}

pub fn remove(d: u64, k: u32) -> u64
    requires { k < label_count }
    ensures { result ≡ remove_of d k }
{
    without(d, only(k))
}
