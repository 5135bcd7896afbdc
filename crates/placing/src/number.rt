// The number of a page.
ghost use Rattle.std.specs.Prelude.{◌≡◌, ◌≤◌, ◌<◌, MatchOption};
ghost use Rattle.pages.specs.Sizes.{PAGES};

use pages::PAGES;

#[derive(Clone, Copy)]
pub struct PageNumber {
    pub number: u32,
    pub ghost below: { number < PAGES },
}

impl PageNumber {
    // None where no page has the number.
    pub fn new(number: u32) -> Option<PageNumber>
        ensures { MatchOption result (PAGES ≤ number) (λ p. p.number ≡ number) }
    {
        if number as usize >= PAGES {
            return None;
        }
        Some(PageNumber { number })
    }

    pub fn index(self) -> usize
        ensures same { result ≡ self.number }
        ensures below { result < PAGES }
    {
        self.number as usize
    }
}
