//! The links of a GSUB, as the walk meets them. This project's own.
ghost use Rattle.std.specs.Prelude.{◌≡◌};
ghost use Rattle.std.specs.Iterator.{YieldsFirst, item_count};
ghost use Rattle.font_layout.specs.Layout.{links_among};

use crate::step::{Link, Step};
use crate::walk::Steps;
use std::marker::Model;

/// The links among steps, in order.
#[derive(Drop)]
pub(crate) struct LinkSteps<'a> {
    steps: Steps<'a>,
}

impl<'a> Model for LinkSteps<'a> {
    ghost use Rattle.std.specs.Prelude.{List};
    ghost use Rattle.font_layout.specs.Layout.{links_among};
    ghost use Rattle.font_layout.specs.declared.step.Link.{Link};

    ghost Value = { List Link };

    ghost view = { λ l. links_among l.steps };
}

impl<'a> LinkSteps<'a> {
    pub(crate) fn of(steps: Steps<'a>) -> LinkSteps<'a>
        ensures { result ≡ links_among steps.entry }
    {
        LinkSteps { steps }
    }
}

impl<'a> Iterator for LinkSteps<'a> {
    type Item = Link;

    ghost next_gives = { YieldsFirst (λ s. s) };

    ghost remaining = { item_count (λ s. s) };

    // A call would copy each link that it returns.
    #[inline(always)]
    fn next(&mut self) -> Option<Link> {
        loop {
            let step = self.steps.next()?;
            if let Step::Leads(link) = step {
                return Some(link);
            }
        }
    }
}
