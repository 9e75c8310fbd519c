// Plays the log on standard input and writes its answers to standard output. Every whole record that has been read is answered
// before more is read, so that a log can come through a pipe, one record at a time.
#![tactic(auto)]

ghost use Rattle.std.specs.Prelude.{◌<◌, ◌≤◌, length, IfSome};

use playback::Progress;
use std::io::Read;

// A player with the memory that it is lent, and the buffer for its answers.
#[derive(Drop)]
struct Player<'a> {
    hub: &'a mut [u32],
    region: &'a mut [u8],
    held: &'a mut [u8],
    progress: Progress,
    out: &'a mut [u8],
}

fn write_front(rt: &impl Print, out: &[u8], count: usize) -> Option<()> {
    rt.write_all(&out[..count.min(out.len())]).ok()
}

impl Player<'_> {
    // Feeds once, writes the answers, and returns the bytes taken. None after an unknown kind, and where the answers cannot be
    // written.
    fn feed(&mut self, rt: &impl Print, rest: &[u8]) -> Option<usize>
        ensures { IfSome result (λ taken. (0 < taken) × (taken ≤ length rest.now)) }
    {
        let report = playback::feed(
            self.hub,
            self.region,
            self.held,
            self.progress,
            rest,
            self.out,
        )
        .ok()?;
        self.progress = report.progress;
        write_front(rt, self.out, report.written)?;
        let taken = report.taken.min(rest.len());
        if self.progress.stopped | (taken == 0) {
            None
        } else {
            Some(taken)
        }
    }

    // Feeds a piece. Where its answers need more room than the buffer has, it takes several turns.
    fn play(&mut self, rt: &impl Print, piece: &[u8]) -> Option<()> {
        let mut rest = piece;
        while !rest.is_empty() {
            let taken = self.feed(rt, rest)?;
            rest = &rest[taken..];
        }
        Some(())
    }

    // The end of the input.
    fn finish(self, rt: &impl Print) {
        let Player {
            hub,
            region,
            held,
            progress,
            out,
        } = self;
        let written = playback::finish(hub, region, held, progress, out);
        let _ = write_front(rt, out, written.unwrap_or(0));
    }
}

fn main(rt: HostRuntime) {
    let mut hub = [0u32; words::MAX_HUB_WORDS];
    let mut region = [0u8; playback::REGION_BYTES];
    let mut held = [0u8; playback::RECORD_BYTES];
    let mut piece = [0u8; 65536];
    let mut out = [0u8; 65536];
    let mut player = Player {
        hub: &mut hub,
        region: &mut region,
        held: &mut held,
        progress: Progress::start(),
        out: &mut out,
    };
    let mut input = rt.stdin();
    // A proved loop has to end, and nothing says that the input does: no run uses up so many turns. A failed read ends it too.
    for _ in 0..u64::MAX {
        let count = input.read(&mut piece).unwrap_or(0);
        if count == 0 {
            player.finish(&rt);
            return;
        }
        if player.play(&rt, &piece[..count]).is_none() {
            return;
        }
    }
}
