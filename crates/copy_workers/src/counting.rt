ghost use Rattle.std.specs.Prelude.{◌≡◌, ◌<◌, ◌≤◌, ◌^◌};
ghost use Rattle.copy_workers.specs.Desk.{chunk_limit, given_to};
ghost use Rattle.outbox.specs.Counting.{landed_in};

use outbox::{Note, Outgoing, To};

/// How many bytes landed, as these notes tell.
pub fn landed_in(notes: &[Note]) -> u64
    requires { landed_in notes.now ≤ chunk_limit }
    ensures { result ≡ landed_in notes.now }
{
    let mut sum = 0;
    'notes: for note in notes {
        if let Note::Landed { len, .. } = note {
            sum += u64::from(*len);
        }
    }
    sum
}

/// How many bytes these records are on a worker's link, with the mark of four bytes before each (RFC 5531 section 11).
pub fn given_to(worker: u8, sent: &[Outgoing]) -> u64
    requires { given_to worker sent.now < 2 ^ 64 }
    ensures { result ≡ given_to worker sent.now }
{
    let mut sum = 0;
    'records: for outgoing in sent {
        match outgoing.to {
            To::Source(number) if number == worker => sum += outgoing.bytes.len() as u64 + 4,
            _ => {}
        }
    }
    sum
}
