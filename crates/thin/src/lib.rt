// A thin function over a `&mut` of a value: it gives the value to a core function, which takes it by value and gives back what it becomes and an answer.
#![tactic(auto)]

// The thin function asks what `core` asks, and ensures of the last value and of its answer what `core` ensures of the two that it gives back.
pub fn thin<S: Copy, G, F: FnOnce(S) -> (S, G)>(value: &mut S, core: F) -> G
    requires { F.pre core value.old }
    ensures { F.post core value.old (value.new, result) }
{
    let (next, answer) = core(*value);
    *value = next;
    answer
}
