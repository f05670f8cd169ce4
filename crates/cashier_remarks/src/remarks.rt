// Who receives remarks.

use crate::remark::Remark;

/// Receives remarks. Nothing depends on whether it succeeds.
pub trait Remarks {
    /// Receives a remark. It may be held until the run has ended, since a fault is named before its reasons are.
    fn tell(&self, remark: &Remark<'_>);

    /// Has what is held shown now, and what comes later at once: the run may last for days.
    fn show_at_once(&self) {}

    /// Whether anybody receives them. If not, nothing is read only for remarks.
    fn are_told(&self) -> bool {
        true
    }
}

/// Ignores all remarks.
#[derive(Clone, Copy)]
pub struct NoRemarks;

impl Remarks for NoRemarks {
    fn tell(&self, _remark: &Remark<'_>) {}

    fn are_told(&self) -> bool {
        false
    }
}

/// Passes remarks on as a command line asks: none if it is quiet.
#[derive(Drop)]
pub struct AskedRemarks<'a, M> {
    /// Receives the remarks if it is not quiet.
    pub remarks: &'a M,
    /// Whether remarks are dropped.
    pub is_quiet: bool,
}

impl<M: Remarks> Remarks for AskedRemarks<'_, M> {
    fn tell(&self, remark: &Remark<'_>) {
        if self.are_told() {
            self.remarks.tell(remark);
        }
    }

    fn show_at_once(&self) {
        self.remarks.show_at_once();
    }

    fn are_told(&self) -> bool {
        !self.is_quiet && self.remarks.are_told()
    }
}
