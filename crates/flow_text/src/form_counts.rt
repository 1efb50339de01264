//! How many sites have which form.
ghost use Rattle.std.specs.Prelude.{◌≡◌, count_by, is_some};
ghost use Rattle.flow_text.specs.FormCounts.{site_counts, is_never, is_stay, is_direct, is_general, is_site_with};

use image_model::{Form, Image, Site};

/// How many sites an image has, and how many of them have each form.
#[derive(Clone, Copy)]
pub struct SiteCounts {
    pub sites: usize,
    pub never: usize,
    pub stay: usize,
    pub direct: usize,
    pub general: usize,
}

fn is_never(site: Option<Site>) -> bool
    ensures { result ≡ is_site_with is_never site }
{
    matches!(
        site,
        Some(Site {
            form: Form::Never,
            known: _
        })
    )
}

fn is_stay(site: Option<Site>) -> bool
    ensures { result ≡ is_site_with is_stay site }
{
    matches!(
        site,
        Some(Site {
            form: Form::Stay,
            known: _
        })
    )
}

fn is_direct(site: Option<Site>) -> bool
    ensures { result ≡ is_site_with is_direct site }
{
    matches!(
        site,
        Some(Site {
            form: Form::Direct(_),
            known: _
        })
    )
}

fn is_general(site: Option<Site>) -> bool
    ensures { result ≡ is_site_with is_general site }
{
    matches!(
        site,
        Some(Site {
            form: Form::General,
            known: _
        })
    )
}

fn count_of_never(sites: &[Option<Site>]) -> usize
    ensures { result ≡ count_by (is_site_with is_never) sites.now }
{
    sites.iter().filter(|site| is_never(**site)).count()
}

fn count_of_stay(sites: &[Option<Site>]) -> usize
    ensures { result ≡ count_by (is_site_with is_stay) sites.now }
{
    sites.iter().filter(|site| is_stay(**site)).count()
}

fn count_of_direct(sites: &[Option<Site>]) -> usize
    ensures { result ≡ count_by (is_site_with is_direct) sites.now }
{
    sites.iter().filter(|site| is_direct(**site)).count()
}

fn count_of_general(sites: &[Option<Site>]) -> usize
    ensures { result ≡ count_by (is_site_with is_general) sites.now }
{
    sites.iter().filter(|site| is_general(**site)).count()
}

fn count_of_sites(sites: &[Option<Site>]) -> usize
    ensures { result ≡ count_by is_some sites.now }
{
    sites.iter().filter(|site| site.is_some()).count()
}

/// Counts the sites of an image.
pub fn site_counts(image: &Image) -> SiteCounts
    ensures { result ≡ site_counts image.now.sites }
{
    let sites = image.sites.as_slice();
    SiteCounts {
        sites: count_of_sites(sites),
        never: count_of_never(sites),
        stay: count_of_stay(sites),
        direct: count_of_direct(sites),
        general: count_of_general(sites),
    }
}
