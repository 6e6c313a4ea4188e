// Room for bytes that wait in front of a sink.
ghost use Rattle.std.specs.Prelude.{◌≡◌, ◌+◌, ◌<◌, ◌≤◌, [], length};

use crate::sink::Sink;

// Collects bytes in lent room, and passes them on when it is full. Any room will do, also none.
#[derive(Drop)]
pub struct Buffered<'a, K> {
    room: &'a mut [u8],
    used: usize,
    sink: K,
    ghost within: { used ≤ length room.now },
}

impl<'a, K: Sink> Buffered<'a, K> {
    ghost use Rattle.std.specs.Prelude.{false};
    ghost use Rattle.streams.specs.Sinks.{Took, behind};
    ghost use Rattle.streams.specs.Waiting.{waiting};

    pub fn new(room: &'a mut [u8], sink: K) -> Buffered<'a, K>
        ensures sink { result.sink ≡ sink }
        ensures waiting { waiting result ≡ [] }
    {
        Buffered {
            room,
            used: 0,
            sink,
        }
    }

    // Passes on what waits.
    fn pass_on(&mut self)
        ensures took { Took (behind (K.state self.old.sink) (waiting self.old)) (behind (K.state self.new.sink) (waiting self.new)) [] }
        ensures room { length self.new.room.now ≡ length self.old.room.now }
        ensures none { self.new.used ≡ 0 }
    {
        self.sink.put(&self.room[..self.used]);
        self.used = 0;
    }

    // Makes room for so many bytes more, or for as many as there can be.
    fn make_room(&mut self, count: usize)
        ensures took { Took (behind (K.state self.old.sink) (waiting self.old)) (behind (K.state self.new.sink) (waiting self.new)) [] }
        ensures room { length self.new.room.now < self.new.used + count → self.new.used ≡ 0 }
    {
        if count > self.room.len() - self.used {
            self.pass_on();
        }
    }

    // The sink, to which all was passed on.
    pub fn close(self) -> K
        ensures took { Took (behind (K.state self.entry.sink) (waiting self.entry)) (K.state result) [] }
        ensures whole { (K.state result).broken ≡ false → (K.state result).owed ≡ [] }
    {
        let Buffered {
            room,
            used,
            mut sink,
        } = self;
        sink.put(&room[..used]);
        sink.finish();
        sink
    }
}

impl<K: Sink> Sink for Buffered<'_, K> {
    ghost use Rattle.streams.specs.Sinks.{behind};
    ghost use Rattle.streams.specs.Waiting.{waiting};

    ghost state = { λ s. behind (K.state s.sink) (waiting s) };

    fn put(&mut self, bytes: &[u8]) {
        self.make_room(bytes.len());
        if bytes.len() > self.room.len() - self.used {
            self.sink.put(bytes);
        } else {
            let end = self.used + bytes.len();
            self.room[self.used..end].copy_from_slice(bytes);
            self.used = end;
        }
    }

    fn finish(&mut self) {
        self.pass_on();
        self.sink.finish();
    }
}
