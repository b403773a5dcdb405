// Calls, as another crate makes them, of public functions that no program calls so: each by its public name, with what its caller chose.
#![tactic(auto)]

#[cfg(test)]
mod tests {
    use erase_plan::EraseType;
    use flash::Session;
    use moss_flash::Refusal;
    use std::fmt;
    use std::fmt::Display;
    use std::test::Fail;
    use tallies::{Class, Known, Totals};

    // The one difference of a list of numbers.
    #[derive(Clone, Copy)]
    struct Far;

    impl Display for Far {
        fn fmt<W: fmt::Write>(&self, f: &mut fmt::Formatter<W>) -> fmt::Result {
            f.write_str("far")
        }
    }

    impl Known for Far {
        fn place(self) -> usize {
            3
        }
    }

    fn told(holds: bool, what: &'static str) -> Result<(), Fail> {
        if holds { Ok(()) } else { Err(Fail::new(what)) }
    }

    // The class by a closure that holds a number, which no difference's own class can.
    #[test]
    fn counts_by_a_closure() -> Result<(), Fail> {
        for (chosen, same, far) in [(2, 1, 3), (7, 2, 2)] {
            let mut list: &[u8] = &[2, 7, 9, 7, 0];
            let totals = tallies::count(&mut list, &mut [0; 1], |record| match record {
                [0] => Class::Unlisted,
                [n] if *n == chosen => Class::Same,
                [_] => Class::Known(Far),
                _ => Class::Wrong,
            })?;
            told(totals.same == same, "those like the chosen number")?;
            told(totals.known[3] == far, "those unlike it")?;
            told(totals.seen == 5 && totals.wrong == 0, "all of them")?;
            told(totals.first == Some(5), "the first on no list")?;
        }
        Ok(())
    }

    // Of a difference that has no class of its own.
    #[test]
    fn adds_and_shows(rt: HostRuntime) -> Result<(), Fail> {
        let mut totals = Totals::new();
        totals.add(Class::Known(Far));
        totals.add::<Far>(Class::Wrong);
        totals.show(&rt, "Numbers", "near", &[Far])?;
        told(
            totals.known[3] == 1 && totals.wrong == 1,
            "each at its place",
        )?;
        told(
            totals.seen == 2 && totals.first == Some(2),
            "the first that is wrong",
        )
    }

    // A command of the caller's own, over the buffer that it lends: it fills the buffer, and sets the page size.
    #[test]
    fn lends_a_buffer() -> Result<(), Fail> {
        let mut session = [0; 256];
        let mut event = [0; 64];
        let mut work = [0; 4];
        packed::put(&mut session, Session::new());
        let opened = moss_flash::open_start(&session, 64);
        let chosen = 0x5A;
        let answer = moss_flash::lent(opened, &mut session, &mut event, &mut work, |s, room| {
            room.fill(chosen);
            s.set_page_size(64)
        });
        told(answer == 0, "the setter's answer")?;
        told(work == [chosen; 4], "the buffer as the command left it")?;
        let kept = moss_flash::unpack(&session).ok_or("no session")?;
        told(kept.settings.page_size == 64, "the session packed")
    }

    // A refused call runs no command.
    #[test]
    fn lends_nothing_where_refused() -> Result<(), Fail> {
        let mut session = [7; 256];
        let mut event = [8; 64];
        let mut work = [9; 4];
        let answer = moss_flash::lent(
            Err(Refusal::BadSession),
            &mut session,
            &mut event,
            &mut work,
            |s, room| {
                room.fill(0);
                s.set_page_size(64)
            },
        );
        told(answer == 13, "the refusal's answer")?;
        told(
            session == [7; 256] && event == [8; 64] && work == [9; 4],
            "nothing changed",
        )
    }

    // Each stands before the next: by size, opcode, time, an absent time first.
    #[test]
    fn orders_types() -> Result<(), Fail> {
        let of = |size, opcode, time: Option<u32>| EraseType {
            size,
            opcode,
            timed: time.is_some(),
            time: time.unwrap_or(0),
        };
        let sorted = [
            of(4096, 0x20, None),
            of(4096, 0x20, Some(0)),
            of(4096, 0x20, Some(9)),
            of(4096, 0x21, None),
            of(65536, 0x0D, Some(1)),
        ];
        for pair in sorted.windows(2) {
            told(pair[0] < pair[1], "two in order")?;
            told(pair[1].max(pair[0]) == pair[1], "the later one")?;
        }
        Ok(())
    }
}
