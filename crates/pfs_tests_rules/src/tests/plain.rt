//! A verdict that is computed plainly: each item by itself, in order.

/// How deep the items of a ruleset may be here.
pub const DEPTHS: usize = 6;

/// What a plain evaluation needs of an item.
#[derive(Clone, Copy, Debug, PartialEq, Eq)]
pub struct PlainStep {
    /// The number of anchors around it.
    pub depth: usize,
    /// Whether it has `quick`.
    pub quick: bool,
    /// Whether its filter holds.
    pub holds: bool,
    /// What it does besides, if it is a rule, and no anchor.
    pub marks: Option<PlainMarks>,
}

/// What a rule asks of a packet's tag, and does with it. A tag is known by a number of its own here.
#[derive(Clone, Copy, Debug, PartialEq, Eq)]
pub struct PlainMarks {
    /// Whether it is a `match` rule.
    pub is_match: bool,
    /// The tag that it gives.
    pub tag: Option<u32>,
    /// The tag that it asks for.
    pub tagged: Option<u32>,
    /// Whether it asks for another, or none.
    pub negated: bool,
}

impl PlainMarks {
    /// Whether what it asks holds of a packet with this tag.
    fn hold_of(&self, tag: Option<u32>) -> bool {
        self.tagged.is_none() || (tag == self.tagged) != self.negated
    }
}

/// An anchor that is open.
#[derive(Clone, Copy, Debug, PartialEq, Eq)]
struct Open {
    quick: bool,
    /// Whether a rule in it matched and decides.
    hit: bool,
}

/// A plain evaluation, as far as it has come.
#[derive(Clone, Copy, Debug, PartialEq, Eq)]
pub struct Evaluation {
    /// The place of the last rule that matched and decides.
    pub found: Option<usize>,
    /// The number of items that were compared.
    pub visits: u64,
    /// The packet's tag.
    pub tag: Option<u32>,
    is_over: bool,
    /// The depth of an anchor that did not match, in whose body the evaluation is.
    hidden: Option<usize>,
    open: [Option<Open>; DEPTHS],
}

impl Evaluation {
    /// Before the first item.
    pub fn new() -> Evaluation {
        Evaluation {
            found: None,
            visits: 0,
            tag: None,
            is_over: false,
            hidden: None,
            open: [None; DEPTHS],
        }
    }

    /// After one more item, which is at a place.
    pub fn behind(self, place: usize, step: &PlainStep) -> Evaluation {
        let left = self.after_leaving(step.depth);
        if left.is_over || left.hidden.is_some_and(|anchor| step.depth > anchor) {
            return left;
        }
        let visits = left.visits.saturating_add(1);
        let visited = Evaluation {
            visits,
            hidden: None,
            ..left
        };
        match (step.holds, step.marks) {
            (false, Some(_)) => visited,
            (false, None) => Evaluation {
                hidden: Some(step.depth),
                ..visited
            },
            (true, Some(marks)) => visited.asked(place, step.quick, &marks),
            (true, None) => visited.opened(step.depth, step.quick),
        }
    }

    /// After the bodies of the anchors that are not around an item of this depth.
    fn after_leaving(self, depth: usize) -> Evaluation {
        let mut left = self;
        for (around, anchor) in left.open.iter_mut().enumerate() {
            if around >= depth {
                if anchor.is_some_and(|anchor| anchor.quick && anchor.hit) {
                    left.is_over = true;
                }
                *anchor = None;
            }
        }
        left
    }

    /// After a rule whose filter holds.
    fn asked(self, place: usize, quick: bool, marks: &PlainMarks) -> Evaluation {
        if !marks.hold_of(self.tag) {
            return self;
        }
        let marked = Evaluation {
            tag: marks.tag.or(self.tag),
            ..self
        };
        if marks.is_match {
            marked
        } else {
            marked.hit(place, quick)
        }
    }

    /// After a rule that matched and decides.
    fn hit(self, place: usize, quick: bool) -> Evaluation {
        let mut hit = self;
        for anchor in hit.open.iter_mut() {
            if let Some(anchor) = anchor {
                anchor.hit = true;
            }
        }
        hit.found = Some(place);
        hit.is_over = quick;
        hit
    }

    /// Inside an anchor that matched.
    fn opened(self, depth: usize, quick: bool) -> Evaluation {
        let mut opened = self;
        for (around, anchor) in opened.open.iter_mut().enumerate() {
            if around == depth {
                *anchor = Some(Open { quick, hit: false });
            }
        }
        opened
    }
}
