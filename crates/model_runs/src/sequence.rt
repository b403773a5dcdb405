// A sequence: a part with random contents, and on it commands with setters between them.
use crate::calls::Call;
use crate::runs::{Run, Totals};
use crate::shapes::{Flaw, Shape};
use crate::{calls, shapes};
use part_host::Wired;
use part_host::source::Source;

// The part and what the driver is told of it, the run so far, the room for commands, the part's memory, and the image beside it.
#[derive(Drop)]
struct Sequence<'a> {
    shape: Shape,
    wired: Wired<'a>,
    run: Run,
    work: &'a mut [u8],
    memory: &'a mut [u8],
    image: &'a mut [u8],
}

impl Sequence<'_> {
    // A command with the room that is lent for it, and random data; then its verdict.
    fn command(&mut self, call: Call) {
        let run = self.run;
        let mut data = [0; 256];
        run.source.fill(&mut data);
        let (work, memory, image) = (&mut *self.work, &mut *self.memory, &mut *self.image);
        let n = call.room.min(work.len() as u64) as usize;
        let play = part_host::carry_out(
            run.session,
            run.state,
            run.source,
            self.wired,
            call.command,
            &data,
            &mut work[..n],
            memory,
        );
        let verdict = calls::judge(call.command, play, &data, &work[..n], memory, image);
        self.run.played(play, verdict);
    }

    // Setters, some of them refused, that leave the settings fitting; then a command.
    fn act(&mut self) {
        let for_setters = self.run.source.draw_six();
        let for_command = self.run.source.draw_six();
        let session = shapes::fitted(self.shape, for_setters, self.run.session);
        self.run.set(session, shapes::SETTERS);
        self.command(calls::drawn(for_command, self.shape));
    }
}

// One sequence: the parameters if the part has them, then the acts. The part is idle at first, or not.
pub fn play(seed: u64, flaw: Option<Flaw>) -> Totals {
    let mut source = Source { state: seed };
    let shape = shapes::draw(source.draw_six(), flaw);
    let mut area = [0xFF; 80];
    shapes::put_area(shape, &mut area);
    let capacity = (shape.capacity as usize).min(4096);
    let mut memory = [0; 4096];
    let memory = &mut memory[..capacity];
    source.fill(memory);
    let mut image = [0; 4096];
    let image = &mut image[..capacity];
    image.copy_from_slice(memory);
    let mut sequence = Sequence {
        shape,
        wired: Wired {
            part: shapes::part(shape, flaw, &area),
            slow: flaw == Some(Flaw::Slow),
        },
        run: Run::begun(if flaw == Some(Flaw::Busy) { 3 } else { 0 }, source),
        work: &mut [0; 4096],
        memory,
        image,
    };
    sequence.command(calls::FIRST);
    for _ in 0..24 {
        sequence.act();
    }
    sequence.run.totals
}
