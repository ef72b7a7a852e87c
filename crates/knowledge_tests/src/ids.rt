//! Numbers of events, and labels that are free.

ghost use Rattle.std.specs.Prelude.{◌<◌, ◌≤◌};
ghost use Rattle.za_alpha.specs.Limits.{most_letters};

use std::test::Fail;
use za_alpha::Letter;
use za_ids::{EventId, first_unmarked, id_of, label_of, least_free, letter_of};

#[test]
fn numbers_and_back(rt: HostRuntime) -> Result<(), Fail> {
    for (n, letter, label, number) in [
        (1, 0, 0, 1),
        (1, 0, 1, 2),
        (2, 2, 0, 19),
        (4, 3, 0, 196),
        (10, 127, 1000, 128128),
    ] {
        let id = id_of(n, Letter(letter), label);
        assert_eq!(rt; id, EventId(number));
        assert_eq!(rt; letter_of(n, id), Some(Letter(letter)));
        assert_eq!(rt; label_of(n, id), Some(label));
    }
    assert_eq!(rt; letter_of(10, EventId(0)), None);
    assert_eq!(rt; label_of(10, EventId(0)), None);
    Ok(())
}

/// The least label of letter 0 that is free beside one event of one process.
fn least_beside(letter: u8, label: u16) -> u16
    requires letter { letter < most_letters }
    requires label { label ≤ 1 }
{
    least_free(1, Letter(0), &[id_of(1, Letter(letter), label)])
}

/// The least label of a letter that is free beside no event, one of letter 0 and three of letter 1.
fn least_of_five(letter: u8) -> u16
    requires { letter < most_letters }
{
    let (a, b) = (Letter(0), Letter(1));
    let ids = [
        EventId(0),
        id_of(2, b, 1),
        id_of(2, a, 0),
        id_of(2, b, 0),
        id_of(2, b, 3),
    ];
    least_free(2, Letter(letter), &ids)
}

#[test]
fn least_label_that_is_free(rt: HostRuntime) -> Result<(), Fail> {
    assert_eq!(rt; (least_beside(0, 0), least_beside(0, 1)), (1, 0));
    assert_eq!(rt; least_beside(1, 0), 0);
    assert_eq!(rt; least_free(2, Letter(0), &[]), 0);
    assert_eq!(rt; (least_of_five(0), least_of_five(1)), (1, 2));
    assert_eq!(rt; first_unmarked(&[true, true, false, true]), 2);
    assert_eq!(rt; first_unmarked(&[true, true]), 2);
    Ok(())
}
