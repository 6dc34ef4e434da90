//! The lines that `craqd` prints of an audit and of a fault; for `audits` and `fault`.
ghost use Rattle.std.specs.Prelude.{Some};
ghost use Rattle.craqd.specs.Printed.{audit_text, fault_text};

use crate::fault::Fault;
use craq_audit::Audit;
use std::fmt;

/// The printed result of an audit, with its number of receipts.
#[derive(Clone, Copy)]
pub struct AuditLine<'a> {
    pub audit: &'a Audit,
    pub receipts: usize,
}

impl fmt::Display for AuditLine<'_> {
    ghost output = { λ line. Some (audit_text line.audit.now line.receipts) };

    #[tactic(auto, unfolding(crate::specs::Printed::audit_text))]
    fn fmt<W: fmt::Write>(&self, f: &mut fmt::Formatter<W>) -> fmt::Result {
        match self.audit {
            Audit::Merged(_) => {
                let receipts = self.receipts;
                write!(f, "audit merged {receipts}")
            }
            Audit::NoSender(node, index) => {
                let (node, index) = (node.get(), *index);
                write!(f, "audit nosender {node} {index}")
            }
            Audit::NoReceipt(index) => {
                let index = *index;
                write!(f, "audit noreceipt {index}")
            }
        }
    }
}

/// The printed fault of a server whose plan file has this name; nothing for a fault of the output.
#[derive(Clone, Copy)]
pub struct FaultLine<'a> {
    pub fault: Fault,
    pub plan: &'a str,
}

impl fmt::Display for FaultLine<'_> {
    ghost output = { λ line. fault_text line.fault line.plan.now };

    #[tactic(auto, unfolding(crate::specs::Printed::fault_text))]
    fn fmt<W: fmt::Write>(&self, f: &mut fmt::Formatter<W>) -> fmt::Result {
        match self.fault {
            Fault::CannotRead => {
                let plan = self.plan;
                write!(f, "cannot read {plan}")
            }
            Fault::BadPlan => write!(f, "plan refused"),
            Fault::Memory => write!(f, "no memory"),
            Fault::CannotListen => write!(f, "cannot listen"),
            Fault::AuditRefused(refusal) => {
                let number = refusal.number();
                write!(f, "audit refused {number}")
            }
            Fault::CannotPrint(_) => Ok(()),
        }
    }
}
