//! What a seat at the table of a hall knows, in proofs alone. No value of it is made.

use std::marker::Model;

pub(crate) struct Known {}

impl Model for Known {
    ghost use Rattle.za_hall.specs.Views.{View};

    ghost Value = { View };

    ghost use Rattle.za_hall.specs.Steps.{spent_view};

    ghost view = { λ _. spent_view };
}
