//! The script of the filter.

/// Shows what belongs to a request and a node alone, and closes the rows that are empty then: those that stand in the form, or
/// at first those after `#` in the page's address, as `#request=5&node=2`. Each y stands after a comma or in an attribute of
/// its own. The names of the lanes stay in sight.
pub(crate) const SCRIPT: &str =
    "const svg=document.getElementById('s'),tall=svg.getAttribute('height');
const all=[...svg.querySelectorAll('[class]')].map(e=>({e,c:e.classList,d:e.getAttribute('d'),y:e.getAttribute('y'),k:e.classList.contains('k')}));
const row=y=>Math.floor((y-4)/14);
const ys=a=>a.d?[...a.d.matchAll(/,(\\d+)/g)].map(m=>+m[1]):[+a.y];
const request=document.getElementById('request'),node=document.getElementById('node');
function show(){
  const r=request.value,n=node.value,part=r||n,used=new Set();
  for(const a of all){
    a.on=a.k||(!r||a.c.contains('r'+r))&&(!n||a.c.contains('n'+n));
    a.e.style.display=a.on?'':'none';
    if(part&&a.on&&!a.k)for(const y of ys(a))used.add(row(y));
  }
  const rows=[...used].sort((a,b)=>a-b);
  const place=x=>{let lo=0,hi=rows.length;while(lo<hi){const mid=lo+hi>>1;if(rows[mid]<x)lo=mid+1;else hi=mid}return lo};
  const to=y=>part?(place(row(y))+1)*14+4+(y-4)%14:y;
  let empty=false;
  for(const a of all)if(a.on){
    if(a.k){
      if(a.d){const at=ys(a).map(to);empty=Math.min(...at)==Math.max(...at)}
      a.e.style.display=empty?'none':'';
    }
    if(a.d)a.e.setAttribute('d',a.d.replace(/,(\\d+)/g,(_,y)=>','+to(+y)));
    else a.e.setAttribute('y',to(+a.y));
  }
  svg.setAttribute('height',part?(rows.length+4)*14:tall);
  document.getElementById('said').textContent=part?rows.length+' of '+Math.floor((tall-60)/14)+' rows':'';
}
request.addEventListener('input',show);node.addEventListener('change',show);
const names=document.getElementById('names');
addEventListener('scroll',()=>names.setAttribute('transform','translate(0,'+Math.max(0,30-svg.getBoundingClientRect().top)+')'));
const asked=new URLSearchParams(location.hash.slice(1));
if(location.hash){request.value=asked.get('request');node.value=asked.get('node')||'';show()}
";
