// A whole run: from the bytes of an input to the bytes of its log.
ghost use Rattle.std.specs.Prelude.{◌≡◌, ℕ, ◌+◌, ◌++◌, ◌%◌, ◌≤◌, length, IfOk, OnOk, Some};
ghost use Rattle.line.specs.Held.{held};
ghost use Rattle.network.specs.Faults.{number_of as fault_number};
ghost use Rattle.orders.specs.Log.{Logged, OrdersLog, RunLog, no_line};
ghost use Rattle.orders.specs.Orders.{left};

use crate::log::{put_no, put_pair};
use crate::order::{OrderReader, Reserve, Unreadable};
use crate::quotes::quote;
use crate::words::words_of;
use line::Line;
use network::{Fault, Network, extent, read};
use routing::Workspace;
use std::alloc::{AllocError, Global};

// Answers orders on a network, one after another: what its searches work with, the serial that comes next, and the log.
#[derive(Drop)]
struct Provisioner<'a> {
    network: &'a Network,
    workspace: Workspace,
    serial: u32,
    log: Line,
    ghost serials: { serial ≤ 268435456 },
}

impl Provisioner<'_> {
    // Answers an order by a line.
    fn answer(&mut self, order: Reserve) -> Result<(), AllocError>
        ensures network { self.new.network ≡ self.old.network }
        ensures logged { OnOk result (Logged self.old.network.now order self.old.serial (held self.old.log) (held self.new.log) self.new.serial) }
    {
        let Workspace { words, entries } = &mut self.workspace;
        match quote(self.network, order, self.serial, words, entries) {
            Ok(pair) => {
                put_pair(&mut self.log, self.serial, &pair)?;
                self.serial += 1;
                Ok(())
            }
            Err(refusal) => put_no(&mut self.log, refusal.number()),
        }
    }

    // Ends the log where no order can be read.
    fn stop(mut self, unreadable: Unreadable) -> Result<Line, AllocError>
        ensures { IfOk result (λ line. held line ≡ held self.entry.log ++ no_line 9) }
    {
        put_no(&mut self.log, unreadable.number())?;
        Ok(self.log)
    }
}

// The log of orders on a network.
fn log_orders(network: &Network, mut orders: OrderReader, heap: Global) -> Result<Line, AllocError>
    ensures { IfOk result (λ line. OrdersLog network.now orders.entry.whole 1 (left orders.entry) (held line)) }
{
    let mut provisioner = Provisioner {
        network,
        workspace: Workspace::new(),
        serial: 1,
        log: Line::new(heap),
    };
    while let Some(order) = orders.next_order().transpose() {
        match order {
            Ok(order) => provisioner.answer(order)?,
            Err(unreadable) => return provisioner.stop(unreadable),
        }
    }
    Ok(provisioner.log)
}

// The log of a refused network: its number alone. Want of memory has none, and is handed on.
fn log_fault(fault: Fault, heap: Global) -> Result<Line, AllocError>
    ensures { IfOk result (λ line. (n : ℕ) × (fault_number fault ≡ Some n) × (held line ≡ no_line n)) }
{
    let number = fault.number().ok_or(AllocError)?;
    let mut line = Line::new(heap);
    put_no(&mut line, number)?;
    Ok(line)
}

// The log of an input: its first words are the network, as their header says, the rest are orders.
pub fn run(input: &[u8], heap: Global) -> Result<Line, AllocError>
    ensures { IfOk result (λ line. RunLog input.now (held line)) }
{
    let words = words_of(input, heap)?;
    let (front, rest) = words.split_at(extent(&words));
    match read(front, heap) {
        Ok(network) => {
            let orders = OrderReader::new(rest, input.len() % 4 == 0);
            log_orders(&network, orders, heap)
        }
        Err(fault) => log_fault(fault, heap),
    }
}
