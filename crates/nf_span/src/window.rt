ghost use Rattle.std.specs.Prelude.{◌+◌, ◌-◌, ◌<◌, ℕ, List, drop, length, IfSome, IsNone};
ghost use Rattle.nf_forms.specs.declared.form.Form.{Form};
ghost use Rattle.nf_span.specs.Window.{IsPlain, IsPlainFront, IsWindow};

/// Bytes of a text at once: where characters begin that have to be looked up.
#[derive(Clone, Copy)]
pub(crate) struct Window {
    /// A bit for each, the lowest for the first.
    pub looks: u64,
    /// How many bytes stand after them.
    pub after: usize,
}

impl Window {
    /// What is left of it past so many bytes.
    #[inline(always)]
    pub fn past(self, len: usize) -> Window
        requires { len < 64 }
        ensures { (f : Form) (bytes : List ℕ) → IsWindow f bytes self → IsWindow f (drop len bytes) result }
    {
        Window {
            looks: self.looks >> len,
            after: self.after,
        }
    }

    /// How many bytes stand before the next character that has to be looked up.
    #[inline(always)]
    pub fn before_next(self) -> Option<usize>
        ensures few { IfSome result (λ run. run < 64) }
        ensures next { IfSome result (λ run. (f : Form) (bytes : List ℕ) → IsWindow f bytes self → IsPlain f bytes run × (run + self.after < length bytes)) }
        ensures none { IsNone result → (f : Form) (bytes : List ℕ) → IsWindow f bytes self → IsPlainFront f bytes (length bytes - self.after) }
    {
        if self.looks == 0 {
            return None;
        }
        Some(self.looks.trailing_zeros() as usize)
    }
}
