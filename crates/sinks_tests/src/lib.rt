// The sinks on examples.
#![tactic(auto)]

#[cfg(test)]
mod tests {
    use layers::{Fault, Layer, Refusal};
    use sinks::{BufferSink, CARD_SIZE, Card, CardSink, Full, Sink, SinkFault, cards_for, put_all};
    use std::process::Abort;
    use std::test::Fail;

    // A card that was used before.
    const USED: Card = Card {
        count: 200,
        data: [7; CARD_SIZE],
    };

    // A byte that differs from its neighbours.
    fn byte_at(place: usize) -> u8 {
        (place % 251) as u8
    }

    fn put_many<S: Sink>(sink: &mut S, count: usize) -> Result<(), Full> {
        for place in 0..count {
            sink.put(byte_at(place))?;
        }
        Ok(())
    }

    #[test]
    fn cards_are_filled_in_turn(rt: HostRuntime) -> Result<(), Fail> {
        // How many bytes are put, the space then, and the cards' counts.
        let rows = [
            (0, 381, [0, 0, 0]),
            (1, 380, [1, 0, 0]),
            (127, 254, [127, 0, 0]),
            (128, 253, [127, 1, 0]),
            (254, 127, [127, 127, 0]),
            (255, 126, [127, 127, 1]),
            (380, 1, [127, 127, 126]),
            (381, 0, [127, 127, 127]),
        ];
        for (bytes, space, counts) in rows {
            let mut pile = [USED; 3];
            let mut sink = CardSink::new(&mut pile);
            put_many(&mut sink, bytes)?;
            assert_eq!(rt; sink.count(), bytes);
            assert_eq!(rt; sink.space(), space);
            assert_eq!(rt; pile.map(|card| card.count), counts);
        }
        Ok(())
    }

    // Puts `len` bytes whole, and checks the answer, and that all of them or none went in.
    fn put_whole<S: Sink>(rt: &impl Abort, sink: &mut S, len: usize, answer: Result<(), Full>) {
        let bytes = [5; 200];
        assert!(rt; len <= 200);
        let held = sink.count();
        let space = sink.space();
        assert_eq!(rt; put_all(sink, &bytes[..len]), answer);
        let more = if answer.is_ok() { len } else { 0 };
        assert_eq!(rt; sink.count(), held + more);
        assert_eq!(rt; sink.space() + more, space);
    }

    // The space, how many bytes are put whole, and the answer.
    const WHOLE: [(usize, usize, Result<(), Full>); 8] = [
        (0, 0, Ok(())),
        (0, 1, Err(Full)),
        (1, 0, Ok(())),
        (1, 1, Ok(())),
        (1, 2, Err(Full)),
        (127, 126, Ok(())),
        (127, 127, Ok(())),
        (127, 128, Err(Full)),
    ];

    #[test]
    fn a_buffer_takes_all_or_nothing(rt: HostRuntime) {
        for (space, len, answer) in WHOLE {
            let mut buffer = [9; 200];
            assert!(rt; space <= 200);
            let mut sink = BufferSink::new(&mut buffer[..space]);
            put_whole(&rt, &mut sink, len, answer);
        }
    }

    #[test]
    fn cards_take_all_or_nothing(rt: HostRuntime) -> Result<(), Fail> {
        for (space, len, answer) in WHOLE {
            let mut pile = [USED; 2];
            assert!(rt; space <= 254);
            let mut sink = CardSink::new(&mut pile);
            put_many(&mut sink, 254 - space)?;
            put_whole(&rt, &mut sink, len, answer);
        }
        Ok(())
    }

    #[test]
    fn no_card_takes_nothing(rt: HostRuntime) {
        let mut sink = CardSink::new(&mut []);
        assert_eq!(rt; sink.space(), 0);
        assert_eq!(rt; sink.put(1), Err(Full));
        assert_eq!(rt; sink.unload(&mut []), Ok(0));
    }

    #[test]
    fn a_buffer_is_filled_from_its_start(rt: HostRuntime) -> Result<(), Fail> {
        // How many bytes are put, the answer to one more, and the buffer with it.
        let rows = [
            (0, Ok(()), [4, 9, 9]),
            (1, Ok(()), [0, 4, 9]),
            (2, Ok(()), [0, 1, 4]),
            (3, Err(Full), [0, 1, 2]),
        ];
        for (bytes, answer, after) in rows {
            let mut buffer = [9; 3];
            let mut sink = BufferSink::new(&mut buffer);
            put_many(&mut sink, bytes)?;
            assert_eq!(rt; sink.put(4), answer);
            assert_eq!(rt; buffer, after);
        }
        Ok(())
    }

    #[test]
    fn what_was_written_comes_back(rt: HostRuntime) -> Result<(), Fail> {
        let mut buffer = [9; 4];
        let mut sink = BufferSink::new(&mut buffer);
        put_many(&mut sink, 3)?;
        let written = sink.into_written();
        assert!(rt; written == [0, 1, 2].as_slice());
        Ok(())
    }

    #[test]
    fn cards_are_unloaded_or_refused(rt: HostRuntime) -> Result<(), Fail> {
        // The buffer's size, the answer at 128 bytes, and the bytes at 126 to 129 then.
        let rows = [
            (127, Err(SinkFault::ShortBuffer), [0, 9, 9, 9]),
            (128, Ok(128), [126, 127, 9, 9]),
            (129, Ok(128), [126, 127, 0, 9]),
            (130, Ok(128), [126, 127, 0, 0]),
        ];
        for (size, answer, after) in rows {
            let mut pile = [USED; 2];
            let mut sink = CardSink::new(&mut pile);
            put_many(&mut sink, 128)?;
            let mut out = [9; 130];
            assert!(rt; size <= 130);
            assert_eq!(rt; sink.unload(&mut out[..size]), answer);
            assert!(rt; &out[126..] == after.as_slice());
        }
        Ok(())
    }

    #[test]
    fn a_refused_buffer_holds_zeros(rt: HostRuntime) -> Result<(), Fail> {
        let mut pile = [USED; 1];
        let mut sink = CardSink::new(&mut pile);
        put_many(&mut sink, 3)?;
        let mut out = [9; 3];
        assert_eq!(rt; sink.unload(&mut out), Ok(3));
        assert_eq!(rt; out, [0, 1, 2]);
        assert_eq!(rt; sink.unload(&mut out[..2]), Err(SinkFault::ShortBuffer));
        assert_eq!(rt; out, [0, 0, 2]);
        Ok(())
    }

    #[test]
    fn enough_cards(rt: HostRuntime) {
        let rows = [(0, 0), (1, 1), (127, 1), (128, 2), (254, 2), (255, 3)];
        for (bytes, cards) in rows {
            assert_eq!(rt; cards_for(bytes), cards);
        }
    }

    #[test]
    fn the_fault_is_numbered(rt: HostRuntime) {
        let fault = SinkFault::ShortBuffer;
        let told = Refusal {
            number: 26,
            place: 0,
            layer: Layer::Sink,
        };
        assert_eq!(rt; fault.refusal(), told);
    }
}
