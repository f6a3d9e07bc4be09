//! Tests of work in pieces: that it comes in the order of the list whatever the number of workers, that threads really run, and what the gate
//! is told.
use fac_base::Memory;
use fac_par::{Gate, NoGate, Piece, Workers, map_pieces};
use std::alloc::Global;
use std::sync::atomic::{AtomicU64, Ordering};
use std::test::Fail;

// A piece whose result is the square of a number.
#[derive(Drop)]
struct Square {
    of: u32,
}

impl Piece for Square {
    type Out = u64;

    ghost use Rattle.std.specs.Prelude.{◌≡◌, ◌*◌};

    ghost ready = { λ piece. Unit {0} };

    ghost meets = { λ piece out. out ≡ piece.of * piece.of };

    fn work(&self) -> Result<u64, Memory> {
        let of = u64::from(self.of);
        Ok(of * of)
    }
}

// A gate at which each of two pieces waits until the other has begun too, for so many turns at most.
#[derive(Drop)]
struct PairGate {
    begun: AtomicU64,
    ended: AtomicU64,
    late: AtomicU64,
}

impl Gate for PairGate {
    fn begun(&self, _piece: u64) {
        let _ = self.begun.fetch_add(1, Ordering::SeqCst);
        for _ in 0..100_000_000u64 {
            if self.begun.load(Ordering::SeqCst) >= 2 {
                return;
            }
        }
        let _ = self.late.fetch_add(1, Ordering::SeqCst);
    }

    fn ended(&self, _piece: u64) {
        let _ = self.ended.fetch_add(1, Ordering::SeqCst);
    }
}

#[test]
fn results_stand_in_list_order(rt: HostRuntime) -> Result<(), Fail> {
    let alloc = rt.alloc();
    let mut pieces = Vec::new(alloc);
    for of in 0..10u32 {
        pieces.push(Square { of })?;
    }
    for count in [0, 1, 2, 3, 4, 100] {
        let workers = Workers {
            threads: &rt,
            alloc,
            count,
            gate: &NoGate,
        };
        let outs = map_pieces(&workers, pieces.as_slice())?;
        assert_eq!(rt;
            outs.as_slice(),
            [0, 1, 4, 9, 16, 25, 36, 49, 64, 81].as_slice()
        );
    }
    Ok(())
}

#[test]
fn no_pieces_have_no_results(rt: HostRuntime) -> Result<(), Fail> {
    let alloc = rt.alloc();
    let pieces: [Square; 0] = [];
    let workers = Workers {
        threads: &rt,
        alloc,
        count: 4,
        gate: &NoGate,
    };
    let outs = map_pieces(&workers, &pieces)?;
    assert!(rt; outs.as_slice().is_empty());
    Ok(())
}

#[test]
fn two_pieces_are_worked_at_once(rt: HostRuntime) -> Result<(), Fail> {
    let alloc = rt.alloc();
    let pieces = [Square { of: 3 }, Square { of: 4 }];
    let gate = PairGate {
        begun: AtomicU64::new(0),
        ended: AtomicU64::new(0),
        late: AtomicU64::new(0),
    };
    let workers = Workers {
        threads: &rt,
        alloc,
        count: 2,
        gate: &gate,
    };
    let outs = map_pieces(&workers, &pieces)?;
    assert_eq!(rt; outs.as_slice(), [9, 16].as_slice());
    assert_eq!(rt; gate.late.load(Ordering::SeqCst), 0);
    assert_eq!(rt; gate.begun.load(Ordering::SeqCst), 2);
    assert_eq!(rt; gate.ended.load(Ordering::SeqCst), 2);
    Ok(())
}
