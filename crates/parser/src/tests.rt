// A small parser of its own: any number of names. It shows that the interfaces can be kept, and tries what is generic
// over them.
ghost use Rattle.std.specs.Prelude.{◌≡◌, Some, None};
ghost use Rattle.std.specs.List.{AllByRecursion};
ghost use Rattle.parser.specs.Meaning.{Mark, absent, holds};
ghost use Rattle.std.proofs.Common.{rules};

use crate::*;

const NAME: u32 = 1;

const REACH: u16 = 3;

#[derive(Drop)]
struct Names {
    left: u16,
    // What was left at the mark, if there is one.
    earlier: Option<u16>,
}

fn new_names() -> Names {
    Names {
        left: REACH,
        earlier: None,
    }
}

impl Probing for Names {
    ghost remainder = { λ s. AllByRecursion (λ kind. kind ≡ 1) };

    fn viable(&self, kind: u32) -> bool {
        kind == NAME
    }

    fn complete(&self) -> bool {
        true
    }
}

impl Stepping for Names {
    ghost language = { λ s. AllByRecursion (λ kind. kind ≡ 1) };

    ghost reach = { λ s. 3 };

    ghost left = { λ s. s.left };

    ghost saved = { λ s. elim s.earlier as (λ _. Mark) [ Some n ↦ holds (AllByRecursion (λ kind. kind ≡ 1)) n | None ↦ absent ] };

    ghost reach_small = { Prim.search rules };

    fn start(&mut self) {
        self.left = REACH;
        self.earlier = None;
    }

    fn take(&mut self, kind: u32) -> Result<(), Refused> {
        if kind != NAME {
            return Err(Refused::NotViable);
        }
        if self.left == 0 {
            return Err(Refused::ReachSpent);
        }
        self.left -= 1;
        Ok(())
    }

    fn mark(&mut self) {
        self.earlier = Some(self.left);
    }

    fn back(&mut self) {
        if let Some(left) = self.earlier {
            self.left = left;
            self.earlier = None;
        }
    }

    fn keep(&mut self) {
        self.earlier = None;
    }
}

#[test]
fn names_within_reach(rt: HostRuntime) {
    let mut names = new_names();
    assert!(rt; accepts(&mut names, &[1, 1, 1]));
    assert!(rt; !accepts(&mut names, &[1, 1, 1, 1]), "past the reach");
    assert!(rt; !accepts(&mut names, &[1, 2]), "a number");
    assert!(rt; accepts(&mut names, &[]));
}

#[test]
fn only_names_expected(rt: HostRuntime) {
    let found = expected_kinds(&new_names());
    for kind in 0..20u32 {
        assert!(rt; found.has(kind) == (kind == NAME));
    }
}
