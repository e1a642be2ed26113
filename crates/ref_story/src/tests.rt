ghost use Rattle.std.specs.Prelude.{◌≡◌, [], ◌∷◌, pos};
ghost use mathlib.Core.List.{IsPrefix};

use super::*;
use std::test::*;

// What the tokens take, in bytes.
const BYTES: usize = size_of::<Story<u64>>() + size_of::<Seen<u64>>();

#[test]
fn tokens_have_no_bytes(rt: HostRuntime) -> Result<(), Fail> {
    assert_eq!(rt; BYTES, 0);
    Ok(())
}

// Two looks at one history, with an entry before each.
fn looked_twice() -> (Story<u64>, Seen<u64>, Seen<u64>)
    ensures first { result.1.log ≡ 1 ∷ [] }
    ensures second { result.2.log ≡ 1 ∷ 2 ∷ [] }
    ensures whole { result.0.log ≡ 1 ∷ 2 ∷ [] }
    ensures one { (result.1.name ≡ result.0.name) × (result.2.name ≡ result.0.name) }
{
    let mut story = Story::new();
    story.add(&1);
    let first = story.seen();
    story.add(&2);
    let second = story.seen();
    (story, first, second)
}

// What was seen of a history stays where it stood, whatever is added.
fn stays(story: &mut Story<u64>, seen: &Seen<u64>)
    requires { seen.now.name ≡ story.old.name }
    ensures { IsPrefix seen.now.log story.new.log }
{
    story.add(&3);
    story.bounds(seen);
}

#[test]
fn a_look_begins_a_later_one(_rt: HostRuntime) -> Result<(), Fail> {
    let (mut story, first, second) = looked_twice();
    first.in_line(&second);
    stays(&mut story, &second.again());
    Ok(())
}
