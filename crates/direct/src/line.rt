use lines::ussd::Ussd;

// A line on which a USSD string stands as it is.
#[derive(Clone, Copy, Default)]
pub struct DirectLine {
    pub(crate) string: Ussd,
}
